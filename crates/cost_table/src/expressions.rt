//! The expressions of a branch's results.

ghost use Rattle.std.specs.Prelude.{◌≡◌, ◌<◌, ◌^◌, ◌+◌, ◌++◌, ◌∷◌, [], map, length, IfOk};
ghost use Rattle.std.specs.List.{All};
ghost use Rattle.libfunc_registry.specs.Fam.{fam_of, gives};
ghost use Rattle.libfunc_registry.specs.Wanted.{IsPlaced};
ghost use Rattle.cell_terms.specs.Resolving as resolving;
ghost use Rattle.cost_table.specs.Costs as costs;
ghost use Rattle.cost_table.specs.Fits.{IsSignature, IsCloseExpr};
ghost use Rattle.cost_table.specs.Parts.{all_terms, terms_in, IsSmall, IsSmallRun, IsSmallPart, AreSmall};
ghost use Rattle.cost_table.specs.Results as rows;
ghost use Rattle.cost_table.specs.Terms as terms;

use crate::arrays::arrays_parts;
use crate::control::control_parts;
use crate::costs::ApChange;
use crate::data::data_parts;
use crate::dictionaries::dictionaries_parts;
use crate::felts::felts_parts;
use crate::gas::gas_parts;
use crate::integers::integers_parts;
use crate::part::{Part, Parts};
use crate::row::{Row, row_of};
use crate::sizes::{cells_of, placed};
use casm_word::CellExpr;
use cell_terms::{Slot, Term, resolve};
use libfunc_registry::{Libfunc, Sig};
use std::alloc::{AllocError, Global};
use type_table::Types;

/// The same kind of term, so many cells further.
fn further(term: Term, by: u64) -> Term
    requires { IsSmallRun term (by + 1) }
    ensures term { result ≡ terms.further term by }
    ensures small { IsSmall result }
{
    match term {
        Term::Whole(i) => Term::Whole(i + by as usize),
        Term::Cell(Slot::Own(k)) => Term::Cell(Slot::Own(k + by)),
        Term::Cell(Slot::Arg(i)) => Term::Cell(Slot::Arg(i + by as usize)),
        Term::Cell(Slot::Frame(k)) => Term::Cell(Slot::Frame(k + by)),
        Term::Behind(slot, k) => Term::Behind(slot, k + by),
        _ => term,
    }
}

/// Adds the expression of a term, over the expressions of the arguments, ap having moved `by` cells.
fn push_term(
    cells: &mut Vec<CellExpr>,
    term: Term,
    args: &[CellExpr],
    by: u64,
) -> Result<(), AllocError>
    requires close { All IsCloseExpr args.now }
    requires by { by < 2 ^ 62 }
    requires small { IsSmall term }
    ensures { IfOk result (λ _. cells.new.items ≡ cells.old.items ++ resolving.resolve by args.now term ∷ []) }
{
    cells
        .push(resolve(term, args, by))
        .map_err(AllocError::from)
}

/// Adds the expressions of the terms of a run.
fn push_run(
    cells: &mut Vec<CellExpr>,
    first: Term,
    count: u64,
    args: &[CellExpr],
    by: u64,
) -> Result<(), AllocError>
    requires close { All IsCloseExpr args.now }
    requires by { by < 2 ^ 62 }
    requires small { IsSmallRun first count }
    ensures { IfOk result (λ _. cells.new.items ≡ cells.old.items ++ map (resolving.resolve by args.now) (terms.run first count)) }
{
    for k in 0..count {
        push_term(cells, further(first, k), args, by)?;
    }
    Ok(())
}

/// Adds the expressions of the terms of a part.
fn push_part(
    cells: &mut Vec<CellExpr>,
    part: Part,
    args: &[CellExpr],
    by: u64,
) -> Result<(), AllocError>
    requires close { All IsCloseExpr args.now }
    requires by { by < 2 ^ 62 }
    requires small { IsSmallPart part }
    ensures { IfOk result (λ _. cells.new.items ≡ cells.old.items ++ map (resolving.resolve by args.now) (terms_in part)) }
{
    match part {
        Part::One(term) => push_term(cells, term, args, by),
        Part::Run(first, count) => push_run(cells, first, count, args, by),
    }
}

/// Adds the expressions of all terms.
fn push_parts(
    cells: &mut Vec<CellExpr>,
    parts: Parts,
    args: &[CellExpr],
    by: u64,
) -> Result<(), AllocError>
    requires close { All IsCloseExpr args.now }
    requires by { by < 2 ^ 62 }
    requires small { AreSmall parts }
    ensures { IfOk result (λ _. cells.new.items ≡ cells.old.items ++ map (resolving.resolve by args.now) (all_terms parts)) }
{
    match parts {
        Parts::Nothing => {}
        Parts::Single(a) => push_part(cells, a, args, by)?,
        Parts::Double(a, b) => {
            push_part(cells, a, args, by)?;
            push_part(cells, b, args, by)?;
        }
        Parts::Triple(a, b, c) => {
            push_part(cells, a, args, by)?;
            push_part(cells, b, args, by)?;
            push_part(cells, c, args, by)?;
        }
    }
    Ok(())
}

/// The terms of the results of a branch, which take so many cells.
fn parts_of(
    types: &Types,
    libfunc: Libfunc,
    row: Row,
    args: &[CellExpr],
    amount: u64,
    cells: u64,
    branch: usize,
) -> Parts
    requires placed { IsPlaced types.now libfunc }
    requires branch { branch < length (gives (fam_of types.now libfunc)) }
    requires amount { amount < 2 ^ 40 }
    requires cells { cells < 2 ^ 62 }
    ensures terms { all_terms result ≡ rows.terms_of args.now amount row cells (fam_of types.now libfunc) branch }
    ensures small { AreSmall result }
{
    if let Some(parts) = control_parts(types, libfunc, amount) {
        return parts;
    }
    if let Some(parts) = gas_parts(libfunc, row, cells, branch) {
        return parts;
    }
    if let Some(parts) = felts_parts(libfunc, args, branch) {
        return parts;
    }
    if let Some(parts) = integers_parts(libfunc, row, args, branch) {
        return parts;
    }
    if let Some(parts) = data_parts(types, libfunc, row, branch) {
        return parts;
    }
    if let Some(parts) = arrays_parts(types, libfunc, row, branch) {
        return parts;
    }
    dictionaries_parts(libfunc, row, cells).unwrap()
}

/// How far ap has moved where a branch's results, of so many cells, are named.
fn moved(ap: ApChange, cells: u64) -> u64
    ensures { result ≡ rows.moved ap cells }
{
    match ap {
        ApChange::Known(n) => u64::from(n),
        ApChange::Unknown => cells,
    }
}

/// The expressions of the cells of a branch's results, in order, as they are named after the branch.
///
/// `args` are the expressions of the arguments' cells, in order. `amount` is the offset from fp of the local of an
/// `alloc_local`; no other libfunc's results depend on it. The one error is out of memory, also for results of `2^62` cells
/// or more, which no memory has.
pub fn results(
    alloc: Global,
    types: &Types,
    sig: &Sig,
    args: &[CellExpr],
    amount: u64,
    branch: usize,
) -> Result<Vec<CellExpr>, AllocError>
    requires signature { IsSignature types.now sig.now }
    requires close { All IsCloseExpr args.now }
    requires amount { amount < 2 ^ 40 }
    requires branch { branch < length sig.now.branches }
    ensures { IfOk result (λ cells. cells.items ≡ rows.results args.now amount (fam_of types.now sig.now.libfunc) branch) }
{
    placed(types, sig);
    let Some(count) = cells_of(types, sig.branches.items()[branch].items()) else {
        return Err(AllocError);
    };
    let row = row_of(types, sig.libfunc, branch);
    let parts = parts_of(types, sig.libfunc, row, args, amount, count, branch);
    let mut cells = Vec::new(alloc);
    push_parts(&mut cells, parts, args, moved(row.ap, count))?;
    Ok(cells)
}
