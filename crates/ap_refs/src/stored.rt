//! What is known where a statement begins, in little memory.

ghost use Rattle.std.specs.Prelude.{◌≡◌, ◌<◌, ◌∷◌, [], IfOk, IfSome};
ghost use Rattle.held_list.specs.Held.{get};
ghost use Rattle.ap_refs.specs.Stored as stored;

use crate::cells::{Cells, CellsAt};
use crate::moves;
use crate::place::{Locals, Place};
use casm_word::{At, CellExpr, Reg};
use held_list::Held;
use std::alloc::{AllocError, Global};
use std::marker::Model;

/// A variable of one cell that is near its register.
#[derive(Clone, Copy, Debug, Drop)]
struct Near {
    variable: u32,
    base: Reg,
    off: i16,
}

/// The local state, and how far ap is from where it was at the function's begin where that is known.
#[derive(Clone, Copy, Debug, Drop)]
enum Frame {
    Before(u32),
    BeforeUnknown,
    Done(u32),
    DoneUnknown,
}

/// How a place is kept.
#[derive(Debug, Drop)]
enum Kept {
    /// One variable is held.
    One(Near, Frame),
    /// Two variables are held.
    Two(Near, Near, Frame),
    /// Any other place.
    Wide(Box<Place>),
}

/// A place in little memory, which contracts see as the place.
///
/// Where one or two variables of one near cell are held it takes no memory of its own.
#[derive(Debug, Drop)]
pub struct Stored {
    kept: Kept,
}

impl Model for Stored {
    ghost use Rattle.ap_refs.specs.declared.place.Place.{Place as PlaceOf};
    ghost use Rattle.ap_refs.specs.Stored.{meant, IsInOrder};

    ghost Value = { PlaceOf };

    ghost view = { λ s. meant s.kept };

    ghost invariant = { λ s. IsInOrder s.kept };
}

/// The variables of a place with their cells, as they are read. It takes no memory.
#[derive(Drop)]
pub(crate) enum Pairs<'a> {
    One([(u64, Cells); 1]),
    Two([(u64, Cells); 2]),
    Lent(&'a [(u64, Cells)]),
}

impl Pairs<'_> {
    /// The pairs as a slice.
    pub fn items(&self) -> &[(u64, Cells)]
        ensures { result.now ≡ stored.listed self.now }
    {
        match self {
            Pairs::One(own) => own,
            Pairs::Two(both) => both,
            Pairs::Lent(all) => all,
        }
    }
}

/// A variable in the near form, if it has it.
fn near_of(pair: &(u64, Cells)) -> Option<Near>
    ensures { IfSome result (λ near. pair.now ≡ stored.pair_of near) }
{
    let variable = u32::try_from(pair.0).ok()?;
    let [CellExpr::Cell(at)] = pair.1.items() else {
        return None;
    };
    let off = i16::try_from(at.off).ok()?;
    Some(Near {
        variable,
        base: at.base,
        off,
    })
}

/// The change of ap and the local state in the near form, if they have it.
fn frame_of(ap: Option<u64>, locals: Locals) -> Option<Frame>
    ensures { IfSome result (λ frame. (ap ≡ stored.ap_of frame) × (locals ≡ stored.locals_of frame)) }
{
    match (ap, locals) {
        (Some(ap), Locals::Before) => Some(Frame::Before(u32::try_from(ap).ok()?)),
        (None, Locals::Before) => Some(Frame::BeforeUnknown),
        (Some(ap), Locals::Done) => Some(Frame::Done(u32::try_from(ap).ok()?)),
        (None, Locals::Done) => Some(Frame::DoneUnknown),
        _ => None,
    }
}

/// A place in the near form, if it has it.
fn narrow(place: &Place) -> Option<Kept>
    ensures { IfSome result (λ kept. (stored.meant kept ≡ place.now) × stored.IsInOrder kept) }
{
    let frame = frame_of(place.ap, place.locals)?;
    match place.cells.items() {
        [own] => Some(Kept::One(near_of(own)?, frame)),
        [first, second] => Some(Kept::Two(near_of(first)?, near_of(second)?, frame)),
        _ => None,
    }
}

impl Near {
    fn cell(self) -> CellExpr
        ensures { result ≡ stored.cell_of self }
    {
        CellExpr::Cell(At {
            base: self.base,
            off: i64::from(self.off),
        })
    }

    fn pair(self) -> (u64, Cells)
        ensures { result ≡ stored.pair_of self }
    {
        (u64::from(self.variable), Cells::one(self.cell()))
    }
}

impl Frame {
    fn ap(self) -> Option<u64>
        ensures { result ≡ stored.ap_of self }
    {
        match self {
            Frame::Before(ap) | Frame::Done(ap) => Some(u64::from(ap)),
            Frame::BeforeUnknown | Frame::DoneUnknown => None,
        }
    }

    fn locals(self) -> Locals
        ensures { result ≡ stored.locals_of self }
    {
        match self {
            Frame::Before(_) | Frame::BeforeUnknown => Locals::Before,
            Frame::Done(_) | Frame::DoneUnknown => Locals::Done,
        }
    }
}

impl Stored {
    /// Stores a place.
    pub(crate) fn new(alloc: Global, place: Place) -> Result<Stored, AllocError>
        ensures { IfOk result (λ made. made ≡ place) }
    {
        if let Some(kept) = narrow(&place) {
            return Ok(Stored { kept });
        }
        let kept = Kept::Wide(Box::new(alloc, place)?);
        Ok(Stored { kept })
    }

    /// The variables with their cells, as a list to take arguments out of.
    pub(crate) fn held(&self, alloc: Global) -> Result<Held<Cells>, AllocError>
        ensures { IfOk result (λ held. held ≡ self.now.cells) }
    {
        match &self.kept {
            Kept::One(own, _) => held_one(alloc, own.pair()),
            Kept::Two(first, second, _) => held_two(alloc, first.pair(), second.pair()),
            Kept::Wide(place) => moves::copy(&place.cells),
        }
    }

    /// The variables with their cells, in rising order. It takes no memory.
    pub(crate) fn pairs(&self) -> Pairs<'_>
        ensures { stored.listed result ≡ self.now.cells }
    {
        match &self.kept {
            Kept::One(own, _) => Pairs::One([own.pair()]),
            Kept::Two(first, second, _) => Pairs::Two([first.pair(), second.pair()]),
            Kept::Wide(place) => Pairs::Lent(place.cells.items()),
        }
    }

    /// The expressions of a variable's cells, and none where it isn't held. It takes no memory.
    pub fn cells(&self, variable: u64) -> Option<CellsAt<'_>>
        ensures { result ≡ get variable self.now.cells }
    {
        match &self.kept {
            Kept::One(own, _) if variable == u64::from(own.variable) => {
                Some(CellsAt::one(own.cell()))
            }
            Kept::Two(first, _, _) if variable == u64::from(first.variable) => {
                Some(CellsAt::one(first.cell()))
            }
            Kept::Two(_, second, _) if variable == u64::from(second.variable) => {
                Some(CellsAt::one(second.cell()))
            }
            Kept::Wide(place) => Some(CellsAt::lent(place.cells.get(variable)?.items())),
            _ => None,
        }
    }

    /// How far ap is from where it was at the function's begin, and none where nobody knows. It takes no memory.
    pub fn ap(&self) -> Option<u64>
        ensures { result ≡ self.now.ap }
    {
        match &self.kept {
            Kept::One(_, frame) | Kept::Two(_, _, frame) => frame.ap(),
            Kept::Wide(place) => place.ap,
        }
    }

    /// The local state. It takes no memory.
    pub fn locals(&self) -> Locals
        ensures { result ≡ self.now.locals }
    {
        match &self.kept {
            Kept::One(_, frame) | Kept::Two(_, _, frame) => frame.locals(),
            Kept::Wide(place) => place.locals,
        }
    }
}

/// One variable with its cells. There is room for one more, as a statement may give two results for its argument.
fn held_one(alloc: Global, own: (u64, Cells)) -> Result<Held<Cells>, AllocError>
    ensures { IfOk result (λ held. held ≡ own ∷ []) }
{
    let mut pairs = Vec::with_capacity(alloc, 2)?;
    pairs.push_reserved(own);
    Ok(Held::from_rising(pairs))
}

/// Two variables with their cells, the lesser first, and room for one more.
fn held_two(
    alloc: Global,
    first: (u64, Cells),
    second: (u64, Cells),
) -> Result<Held<Cells>, AllocError>
    requires { first.0 < second.0 }
    ensures { IfOk result (λ held. held ≡ first ∷ second ∷ []) }
{
    let mut pairs = Vec::with_capacity(alloc, 3)?;
    pairs.push_reserved(first);
    pairs.push_reserved(second);
    Ok(Held::from_rising(pairs))
}
