//! The terms of results, in parts.

ghost use Rattle.std.specs.Prelude.{◌≡◌, [], ◌∷◌};
ghost use Rattle.cost_table.specs.Terms as terms;
ghost use Rattle.cost_table.specs.Parts.{IsSmall, IsSmallRun};

use crate::costs::ApChange;
use crate::row::Row;
use casm_word::CellExpr;
use cell_terms::{Second, Slot, Term};

/// Some of the terms of a branch's results, in order.
#[derive(Clone, Copy, Debug, Drop)]
pub(crate) enum Part {
    /// One term.
    One(Term),
    /// So many terms from this one on, each a cell further.
    Run(Term, u64),
}

/// The terms of a branch's results.
#[derive(Clone, Copy, Debug, Drop)]
pub(crate) enum Parts {
    /// None.
    Nothing,
    /// One part.
    Single(Part),
    /// Two parts.
    Double(Part, Part),
    /// Three parts.
    Triple(Part, Part, Part),
}

/// The argument expression of this number, as it is.
pub(crate) fn whole(i: usize) -> Part
    ensures { result ≡ Part.One (terms.whole i) }
{
    Part::One(Term::Whole(i))
}

/// So many argument expressions as they are, from one on.
pub(crate) fn kept(from: usize, count: u32) -> Part
    ensures { result ≡ Part.Run (Term.Whole from) count }
{
    Part::Run(Term::Whole(from), u64::from(count))
}

/// So many new cells, from ap on as it was.
pub(crate) fn laid(count: u64) -> Part
    ensures { result ≡ Part.Run (Term.Cell (Slot.Own 0)) count }
{
    Part::Run(Term::Cell(Slot::Own(0)), count)
}

/// The word of an argument's cell and a number.
pub(crate) fn advanced(i: usize, by: u32) -> Part
    ensures { result ≡ Part.One (terms.advanced i by) }
{
    Part::One(Term::Add(Slot::Arg(i), Second::Number(u64::from(by))))
}

/// The second operand as it is: a number, or else the cell of the argument expression of this number.
pub(crate) fn operand(args: &[CellExpr], i: usize) -> Second
    ensures { result ≡ terms.operand args.now i }
{
    match args.get(i).copied().unwrap_or(CellExpr::Imm(0)) {
        CellExpr::Imm(n) => Second::Number(n),
        _ => Second::Slot(Slot::Arg(i)),
    }
}

/// The new cell that is so many cells below ap, 1 for the last one.
pub(crate) fn last(row: Row, below: u64) -> Part
    ensures { result ≡ Part.One (terms.last row below) }
{
    let change = match row.ap {
        ApChange::Known(n) => u64::from(n),
        ApChange::Unknown => 0,
    };
    Part::One(Term::Cell(Slot::Own(change.saturating_sub(below))))
}

/// The range-check pointer behind the row's own checks.
pub(crate) fn pointer(row: Row) -> Part
    ensures { result ≡ Part.One (terms.pointer row) }
{
    if row.checks == 0 {
        whole(0)
    } else {
        advanced(0, row.checks)
    }
}
