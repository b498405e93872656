//! The arguments of a statement: they are taken out of what is held, and their cells are looked at.

ghost use Rattle.std.specs.Prelude.{◌≡◌, ◌<◌, ◌^◌, ◌++◌, ◌∷◌, [], List, length, pos, ◌-ℤ◌, IfOk, IfSome, OnOk};
ghost use Rattle.std.specs.List.{list_all};
ghost use Rattle.cell_terms.specs.Resolving.{argument};
ghost use Rattle.cost_table.specs.Marks as marking;
ghost use Rattle.ap_refs.specs.Arguments as arguments;

use crate::cells::Cells;
use casm_word::{At, CellExpr, Reg, Side};
use cost_table::Mark;
use held_list::{Held, HeldMap, HeldSteps, MANY};
use std::alloc::{AllocError, Global};
use std::mem;

/// Takes a variable out, and gives its cells.
fn take_out<H: HeldSteps<Cells>>(alloc: Global, variable: u64, held: &mut H) -> Cells
    ensures { arguments.taken_out variable (H.held held.old) ≡ (result, H.held held.new) }
{
    match held.take(variable) {
        Some(cells) => cells,
        None => Cells::new(alloc),
    }
}

/// Takes one variable out, and gives its cells.
pub(crate) fn take_one(alloc: Global, variable: u64, held: &mut Held<Cells>) -> Cells
    ensures { arguments.taken_out variable held.old ≡ (result, held.new) }
{
    take_out(alloc, variable, held)
}

/// Takes variables out, one after another, and gives them with their cells.
pub(crate) fn take_all(
    alloc: Global,
    variables: &[u64],
    held: &mut Held<Cells>,
) -> Result<Vec<(u64, Cells)>, AllocError>
    ensures { IfOk result (λ args. arguments.taken variables.now held.old ≡ (args.items, held.new)) }
{
    if variables.len() < MANY {
        return take_each(alloc, variables, held);
    }
    let mut map = HeldMap::of(alloc, mem::replace(held, Held::new(alloc)))?;
    let args = take_each(alloc, variables, &mut map)?;
    *held = map.into_held(alloc)?;
    Ok(args)
}

/// The same, on a list or on a map.
fn take_each<H: HeldSteps<Cells>>(
    alloc: Global,
    variables: &[u64],
    held: &mut H,
) -> Result<Vec<(u64, Cells)>, AllocError>
    ensures { IfOk result (λ args. arguments.taken variables.now (H.held held.old) ≡ (args.items, H.held held.new)) }
{
    let mut args = Vec::with_capacity(alloc, variables.len())?;
    let mut variables = variables;
    while let [variable, later @ ..] = variables {
        let cells = take_out(alloc, *variable, held);
        keep(&mut args, (*variable, cells))?;
        variables = later;
    }
    Ok(args)
}

/// The cells of all arguments, in order.
pub(crate) fn join(alloc: Global, args: &[(u64, Cells)]) -> Result<Vec<CellExpr>, AllocError>
    ensures { IfOk result (λ cells. cells.items ≡ arguments.joined args.now) }
{
    let mut cells = Vec::new(alloc);
    let mut args = args;
    while let [arg, later @ ..] = args {
        extend(&mut cells, arg.1.items())?;
        args = later;
    }
    Ok(cells)
}

/// Adds cells at the end.
fn extend(list: &mut Vec<CellExpr>, cells: &[CellExpr]) -> Result<(), AllocError>
    ensures { OnOk result (list.new.items ≡ list.old.items ++ cells.now) }
{
    list.extend_from_slice(cells)
}

/// Whether an offset from a register is close.
fn is_close_at(at: At) -> bool
    ensures { result ≡ arguments.is_close_at at }
{
    -0x4000 <= at.off && at.off <= 0x3fff
}

/// Whether an offset of a second operand is close.
fn is_close_side(side: Side) -> bool
    ensures { result ≡ arguments.is_close_side side }
{
    match side {
        Side::Cell(at) => is_close_at(at),
        Side::Imm(_) => true,
    }
}

/// Whether each offset from a register is close.
fn is_close(cell: CellExpr) -> bool
    ensures { result ≡ arguments.is_close cell }
{
    match cell {
        CellExpr::Cell(at) => is_close_at(at),
        CellExpr::DoubleCell(at, _) => is_close_at(at),
        CellExpr::Imm(_) => true,
        CellExpr::Sum(at, side) => is_close_at(at) && is_close_side(side),
        CellExpr::Diff(at, side) => is_close_at(at) && is_close_side(side),
        CellExpr::Product(at, side) => is_close_at(at) && is_close_side(side),
    }
}

/// Whether all of these are close.
fn are_close(cells: &[CellExpr]) -> bool
    ensures { result ≡ list_all arguments.is_close cells.now }
{
    cells.iter().all(|cell| is_close(*cell))
}

/// The first argument with a cell that is too far.
pub(crate) fn first_far(args: &[(u64, Cells)]) -> Option<u64>
    ensures { result ≡ arguments.first_far args.now }
{
    let mut args = args;
    while let [arg, later @ ..] = args {
        if !are_close(arg.1.items()) {
            return Some(arg.0);
        }
        args = later;
    }
    None
}

fn is_ap(base: Reg) -> bool
    ensures { result ≡ arguments.is_ap base }
{
    match base {
        Reg::Ap => true,
        Reg::Fp => false,
    }
}

/// Whether it is the cell so many cells below ap.
fn is_below(down: u64, cell: CellExpr) -> bool
    requires { down < 2 ^ 63 }
    ensures { result ≡ arguments.is_below down cell }
{
    match cell {
        CellExpr::Cell(at) => is_ap(at.base) && at.off == 0 - down as i64,
        _ => false,
    }
}

/// Whether these are the cells from so many below ap on.
fn are_below(down: u64, cells: &[CellExpr]) -> bool
    requires { down < 2 ^ 63 }
    ensures { result ≡ arguments.are_below down cells.now }
{
    let (mut down, mut cells) = (down, cells);
    while let [cell, later @ ..] = cells {
        if !is_below(down, *cell) {
            return false;
        }
        (down, cells) = (down.saturating_sub(1), later);
    }
    true
}

/// The first argument with a cell that isn't in its place, where all cells are to stand from so many below ap on.
pub(crate) fn first_off_top(down: u64, args: &[(u64, Cells)]) -> Option<u64>
    requires { down < 2 ^ 63 }
    ensures { result ≡ arguments.first_off_top down args.now }
{
    let (mut down, mut args) = (down, args);
    while let [arg, later @ ..] = args {
        let cells = arg.1.items();
        if !are_below(down, cells) {
            return Some(arg.0);
        }
        (down, args) = (down.saturating_sub(cells.len() as u64), later);
    }
    None
}

fn is_cell(cell: CellExpr) -> bool
    ensures { result ≡ marking.is_cell cell }
{
    match cell {
        CellExpr::Cell(_) => true,
        _ => false,
    }
}

fn is_cell_or_number(cell: CellExpr) -> bool
    ensures { result ≡ marking.is_cell_or_number cell }
{
    match cell {
        CellExpr::Cell(_) => true,
        CellExpr::Imm(_) => true,
        _ => false,
    }
}

/// Whether the expression of this number is a cell.
fn is_cell_at(cells: &[CellExpr], i: usize) -> bool
    ensures { result ≡ marking.is_cell (argument cells.now i) }
{
    is_cell(cells.get(i).copied().unwrap_or(CellExpr::Imm(0)))
}

fn are_cells(cells: &[CellExpr]) -> bool
    ensures { result ≡ list_all marking.is_cell cells.now }
{
    cells.iter().all(|cell| is_cell(*cell))
}

fn are_cells_or_numbers(cells: &[CellExpr]) -> bool
    ensures { result ≡ list_all marking.is_cell_or_number cells.now }
{
    cells.iter().all(|cell| is_cell_or_number(*cell))
}

/// Whether the cells of an argument have the form that a mark asks.
fn meets_mark(mark: Mark, cells: &[CellExpr]) -> bool
    ensures { result ≡ marking.meets_mark mark cells.now }
{
    match mark {
        Mark::Any => true,
        Mark::Cells => are_cells(cells),
        Mark::CellOrNumber => are_cells_or_numbers(cells),
        Mark::FirstCell => is_cell_at(cells, 0),
        Mark::SecondCell => is_cell_at(cells, 1),
    }
}

/// The first argument whose cells haven't the form that its mark asks.
pub(crate) fn first_unmarked(marks: &[Mark], args: &[(u64, Cells)]) -> Option<u64>
    ensures { result ≡ arguments.first_unmarked marks.now args.now }
{
    let (mut marks, mut args) = (marks, args);
    while let [mark, others @ ..] = marks {
        let [arg, later @ ..] = args else {
            return None;
        };
        if !meets_mark(*mark, arg.1.items()) {
            return Some(arg.0);
        }
        (marks, args) = (others, later);
    }
    None
}

fn side_at_ap(side: Side) -> bool
    ensures { result ≡ arguments.side_at_ap side }
{
    match side {
        Side::Cell(at) => is_ap(at.base),
        Side::Imm(_) => false,
    }
}

/// Whether a part of the expression is a cell from ap.
fn is_from_ap(cell: CellExpr) -> bool
    ensures { result ≡ arguments.is_from_ap cell }
{
    match cell {
        CellExpr::Cell(at) => is_ap(at.base),
        CellExpr::DoubleCell(at, _) => is_ap(at.base),
        CellExpr::Imm(_) => false,
        CellExpr::Sum(at, side) => is_ap(at.base) || side_at_ap(side),
        CellExpr::Diff(at, side) => is_ap(at.base) || side_at_ap(side),
        CellExpr::Product(at, side) => is_ap(at.base) || side_at_ap(side),
    }
}

/// Whether no part of any of these is a cell from ap.
fn are_free_of_ap(cells: &[CellExpr]) -> bool
    ensures { result ≡ arguments.are_free_of_ap cells.now }
{
    let mut cells = cells;
    while let [cell, later @ ..] = cells {
        if is_from_ap(*cell) {
            return false;
        }
        cells = later;
    }
    true
}

/// The least variable that is held with a cell from ap.
pub(crate) fn first_from_ap(held: &[(u64, Cells)]) -> Option<u64>
    ensures { result ≡ arguments.first_from_ap held.now }
{
    let mut held = held;
    while let [pair, later @ ..] = held {
        if !are_free_of_ap(pair.1.items()) {
            return Some(pair.0);
        }
        held = later;
    }
    None
}

/// Adds an item at the end.
pub(crate) fn keep<T: Drop>(list: &mut Vec<T>, item: T) -> Result<(), AllocError>
    ensures { OnOk result (list.new.items ≡ list.old.items ++ item ∷ []) }
{
    Ok(list.push(item)?)
}
