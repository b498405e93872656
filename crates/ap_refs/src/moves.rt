//! What a branch gives its target: ap moves, what is held is named anew, and the results are added.

ghost use Rattle.std.specs.Prelude.{◌≡◌, ◌<◌, ◌≤◌, ◌+◌, ◌^◌, ◌++◌, ◌∷◌, [], map, length, take, drop, IfOk, IfSome, OnOk, pos, ◌-ℤ◌};
ghost use Rattle.std.specs.List.{All};
ghost use Rattle.type_table.specs.View.{trees_of};
ghost use Rattle.libfunc_registry.specs.Wanted.{IsBelow, IsPlaced};
ghost use Rattle.libfunc_registry.specs.Fam.{fam_of};
ghost use Rattle.casm_word.specs.Expressions as expressions;
ghost use Rattle.cost_table.specs.Fits.{IsSignature, IsCloseExpr};
ghost use Rattle.cost_table.specs.Results.{cells_of};
ghost use Rattle.linear_check.specs.Statements as statements;
ghost use Rattle.ap_refs.specs.Bounds.{IsWithin, AreWithin, most_cells, most_moved};
ghost use Rattle.ap_refs.specs.Locals.{size_of};
ghost use Rattle.ap_refs.specs.Moves as moving;
ghost use Rattle.ap_refs.specs.Prepared.{widest};

use crate::arguments::keep;
use crate::cells::Cells;
use crate::place::{Locals, Place};
use casm_word::{At, CellExpr, Reg};
use cell_terms::lowered;
use cost_table::{ApChange, cells_of, cost};
use held_list::{AddFault, Held, HeldMap, HeldSteps, MANY};
use libfunc_registry::{Libfunc, Sig};
use sierra_types::Name;
use std::alloc::{AllocError, Global};
use std::{mem, slice};
use type_table::{TypeId, Types};

/// The number of cells of a value.
pub(crate) fn size(types: &Types, t: TypeId) -> u32
    requires { IsBelow types.now t }
    ensures { result ≡ size_of types.now t }
{
    types.info(t).size
}

/// How far a branch moves ap, and none where nobody knows.
pub(crate) fn change(types: &Types, sig: &Sig, amount: u64, branch: usize) -> Option<u64>
    requires signature { IsSignature types.now sig.now }
    requires placed { IsPlaced types.now sig.now.libfunc }
    requires branch { branch < length sig.now.branches }
    ensures { result ≡ moving.change types.now sig.now.libfunc amount branch }
{
    match sig.libfunc {
        Libfunc::FinalizeLocals => Some(amount),
        Libfunc::DisableApTracking => None,
        Libfunc::StoreTemp(t) => Some(u64::from(size(types, t))),
        Libfunc::BranchAlign => Some(0),
        Libfunc::Jump => Some(0),
        Libfunc::IsZero(_) => Some(0),
        Libfunc::UnwrapNonZero(_) => Some(0),
        Libfunc::Dup(_) => Some(0),
        Libfunc::Drop(_) => Some(0),
        _ => match cost(types, sig, branch).ap {
            ApChange::Known(n) => Some(u64::from(n)),
            ApChange::Unknown => None,
        },
    }
}

/// How far ap is from where it was at the function's begin, once it has moved.
pub(crate) fn further(ap: Option<u64>, moved: Option<u64>) -> Option<u64>
    requires ap { IfSome ap (λ a. a < 2 ^ 62) }
    requires moved { IfSome moved (λ n. n < 2 ^ 62) }
    ensures { result ≡ moving.further ap moved }
{
    match (ap, moved) {
        (Some(ap), Some(moved)) => Some(ap + moved),
        _ => None,
    }
}

/// The same variables with the same cells.
pub(crate) fn copy(held: &Held<Cells>) -> Result<Held<Cells>, AllocError>
    ensures { IfOk result (λ copied. copied ≡ held.now) }
{
    held.clone()
}

/// The same cells, named after ap moved up by `by` cells.
fn lower_cells(alloc: Global, by: u64, cells: &[CellExpr]) -> Result<Cells, AllocError>
    requires near { by ≤ most_moved }
    requires within { All (IsWithin widest) cells.now }
    ensures { IfOk result (λ made. made ≡ map (expressions.lowered by) cells.now) }
{
    if let [cell] = cells {
        return Ok(Cells::one(lowered(*cell, by)));
    }
    let mut made = Vec::with_capacity(alloc, cells.len())?;
    for cell in cells {
        keep(&mut made, lowered(*cell, by))?;
    }
    Ok(Cells::from_vec(made))
}

/// What is held, named after ap moved up by `by` cells. Where nothing changes it takes no memory.
#[tactic(auto, using(crate::proofs::Lists::stays, crate::proofs::Lists::none_stays))]
pub(crate) fn lower_all(
    alloc: Global,
    by: u64,
    held: Held<Cells>,
) -> Result<Held<Cells>, AllocError>
    requires near { by ≤ most_moved }
    requires within { AreWithin widest held }
    ensures { IfOk result (λ made. made ≡ moving.lowered_all by held) }
{
    if by == 0 {
        return Ok(held);
    }
    if held.items().is_empty() {
        return Ok(held);
    }
    lower_each(alloc, by, &held)
}

/// The same, each variable by itself.
fn lower_each(alloc: Global, by: u64, held: &Held<Cells>) -> Result<Held<Cells>, AllocError>
    requires near { by ≤ most_moved }
    requires within { AreWithin widest held.now }
    ensures { IfOk result (λ made. made ≡ moving.lowered_all by held.now) }
{
    let items = held.items();
    let mut pairs = Vec::with_capacity(alloc, items.len())?;
    for pair in items {
        let cells = lower_cells(alloc, by, pair.1.items())?;
        keep(&mut pairs, (pair.0, cells))?;
    }
    Ok(Held::from_rising(pairs))
}

/// Adds a variable, if it isn't held.
fn add_one<H: HeldSteps<Cells>>(variable: u64, cells: Cells, held: &mut H) -> Result<(), AllocError>
    ensures { OnOk result (H.held held.new ≡ moving.added_one variable cells (H.held held.old)) }
{
    match held.add(variable, cells) {
        Ok(()) => Ok(()),
        Err(AddFault::Taken) => Ok(()),
        Err(AddFault::Memory) => Err(AllocError),
    }
}

/// Adds variables of these types with these cells, each taking as many as its type says.
pub(crate) fn add_all(
    alloc: Global,
    types: &Types,
    variables: &[u64],
    kinds: &[TypeId],
    cells: &[CellExpr],
    held: &mut Held<Cells>,
) -> Result<(), AllocError>
    requires { All (IsBelow types.now) kinds.now }
    ensures { OnOk result (held.new ≡ moving.added types.now variables.now kinds.now cells.now held.old) }
{
    if variables.len() < MANY {
        return add_each(alloc, types, variables, kinds, cells, held);
    }
    let mut map = HeldMap::of(alloc, mem::replace(held, Held::new(alloc)))?;
    add_each(alloc, types, variables, kinds, cells, &mut map)?;
    *held = map.into_held(alloc)?;
    Ok(())
}

/// The same, on a list or on a map.
fn add_each<H: HeldSteps<Cells>>(
    alloc: Global,
    types: &Types,
    variables: &[u64],
    kinds: &[TypeId],
    cells: &[CellExpr],
    held: &mut H,
) -> Result<(), AllocError>
    requires { All (IsBelow types.now) kinds.now }
    ensures { OnOk result (H.held held.new ≡ moving.added types.now variables.now kinds.now cells.now (H.held held.old)) }
{
    let (mut variables, mut kinds, mut cells) = (variables, kinds, cells);
    while let [variable, later @ ..] = variables {
        let [kind, others @ ..] = kinds else {
            return Ok(());
        };
        let (own, rest) = cut(size(types, *kind) as usize, cells);
        add_one(*variable, Cells::from_slice(alloc, own)?, held)?;
        (variables, kinds, cells) = (later, others, rest);
    }
    Ok(())
}

/// Adds the variables of these types with a single cell.
pub(crate) fn add_cell(
    alloc: Global,
    types: &Types,
    variables: &[u64],
    kinds: &[TypeId],
    cell: CellExpr,
    held: &mut Held<Cells>,
) -> Result<(), AllocError>
    requires { All (IsBelow types.now) kinds.now }
    ensures { OnOk result (held.new ≡ moving.added types.now variables.now kinds.now (cell ∷ []) held.old) }
{
    if let ([variable], [kind]) = (variables, kinds) {
        if size(types, *kind) == 1 {
            return add_one(*variable, Cells::one(cell), held);
        }
    }
    add_all(alloc, types, variables, kinds, slice::from_ref(&cell), held)
}

/// So many cells, and those behind them.
fn cut(count: usize, cells: &[CellExpr]) -> (&[CellExpr], &[CellExpr])
    ensures own { result.0.now ≡ take count cells.now }
    ensures rest { result.1.now ≡ drop count cells.now }
{
    cells.split_at(count.min(cells.len()))
}

/// The argument cell of this number of a function that has so many.
fn argument_cell(count: u64, k: u64) -> CellExpr
    requires few { count < most_cells }
    requires one { k < count }
    ensures { result ≡ moving.argument_cell count k }
{
    CellExpr::Cell(At {
        base: Reg::Fp,
        off: k as i64 - (count + 2) as i64,
    })
}

/// The argument cells of a function that has so many.
fn argument_cells(alloc: Global, count: u64) -> Result<Vec<CellExpr>, AllocError>
    requires { count < most_cells }
    ensures { IfOk result (λ cells. cells.items ≡ moving.argument_cells count) }
{
    let mut cells = Vec::new(alloc);
    for k in 0..count {
        keep(&mut cells, argument_cell(count, k))?;
    }
    Ok(cells)
}

/// The variables of parameters.
fn variables_of(alloc: Global, params: &[(u64, Name)]) -> Result<Vec<u64>, AllocError>
    ensures { IfOk result (λ vs. vs.items ≡ map (λ x. x.0) params.now) }
{
    let mut variables = Vec::with_capacity(alloc, params.len())?;
    let mut params = params;
    while let [param, later @ ..] = params {
        keep(&mut variables, param.0)?;
        params = later;
    }
    Ok(variables)
}

/// What is known where a function with these parameters, of these types, begins.
pub(crate) fn beginning(
    alloc: Global,
    types: &Types,
    params: &[(u64, Name)],
    kinds: &[TypeId],
) -> Result<Place, AllocError>
    requires { All (IsBelow types.now) kinds.now }
    ensures { IfOk result (λ place. place ≡ moving.beginning types.now (map (λ x. x.0) params.now) kinds.now) }
{
    let Some(count) = cells_of(types, kinds) else {
        return Err(AllocError);
    };
    let variables = variables_of(alloc, params)?;
    let cells = argument_cells(alloc, count)?;
    let mut held = Held::new(alloc);
    add_all(alloc, types, &variables, kinds, &cells, &mut held)?;
    Ok(Place {
        cells: held,
        ap: Some(0),
        locals: Locals::Before,
    })
}
