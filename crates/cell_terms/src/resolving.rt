//! The expression that a term is.

ghost use Rattle.std.specs.Prelude.{◌≡◌, ◌<◌, ◌^◌};
ghost use Rattle.casm_word.specs.Expressions as expressions;
ghost use Rattle.cell_terms.specs.Resolving as resolving;
ghost use Rattle.cell_terms.specs.Fitting.{AtFits, SideFits, ExprFits, SlotFits, SecondFits, TermFits};

use crate::term::{Second, Slot, Term};
use casm_word::{At, CellExpr, Reg, Side};

/// The same cell, named after ap moved up by `by` cells.
fn lowered_at(at: At, by: u64) -> At
    requires small { by < 2 ^ 63 }
    requires fits { AtFits (expressions.lowered_at by at) }
    ensures { result ≡ expressions.lowered_at by at }
{
    match at.base {
        Reg::Ap => At {
            base: Reg::Ap,
            off: at.off - by as i64,
        },
        Reg::Fp => at,
    }
}

/// The same operand, named after ap moved up by `by` cells.
fn lowered_side(side: Side, by: u64) -> Side
    requires small { by < 2 ^ 63 }
    requires fits { SideFits (expressions.lowered_side by side) }
    ensures { result ≡ expressions.lowered_side by side }
{
    match side {
        Side::Cell(at) => Side::Cell(lowered_at(at, by)),
        Side::Imm(word) => Side::Imm(word),
    }
}

/// The same expression, named after ap moved up by `by` cells.
pub fn lowered(expr: CellExpr, by: u64) -> CellExpr
    requires small { by < 2 ^ 63 }
    requires fits { ExprFits (expressions.lowered by expr) }
    ensures { result ≡ expressions.lowered by expr }
{
    match expr {
        CellExpr::Cell(at) => CellExpr::Cell(lowered_at(at, by)),
        CellExpr::DoubleCell(at, inner) => CellExpr::DoubleCell(lowered_at(at, by), inner),
        CellExpr::Imm(word) => CellExpr::Imm(word),
        CellExpr::Sum(at, side) => CellExpr::Sum(lowered_at(at, by), lowered_side(side, by)),
        CellExpr::Diff(at, side) => CellExpr::Diff(lowered_at(at, by), lowered_side(side, by)),
        CellExpr::Product(at, side) => {
            CellExpr::Product(lowered_at(at, by), lowered_side(side, by))
        }
    }
}

/// The cell that an expression is, and the cell at ap if it is no cell.
fn at_of(expr: CellExpr) -> At
    ensures { result ≡ resolving.at_of expr }
{
    match expr {
        CellExpr::Cell(at) => at,
        _ => At {
            base: Reg::Ap,
            off: 0,
        },
    }
}

/// The expression of this number, and the number 0 if there is none.
fn argument(args: &[CellExpr], i: usize) -> CellExpr
    ensures { result ≡ resolving.argument args.now i }
{
    args.get(i).copied().unwrap_or(CellExpr::Imm(0))
}

/// Where a named cell is found once ap has moved `by` cells.
fn place(slot: Slot, args: &[CellExpr], by: u64) -> At
    requires small { by < 2 ^ 63 }
    requires fits { SlotFits by args.now slot }
    ensures { result ≡ resolving.place by args.now slot }
{
    match slot {
        Slot::Own(k) => At {
            base: Reg::Ap,
            off: k as i64 - by as i64,
        },
        Slot::Arg(i) => lowered_at(at_of(argument(args, i)), by),
        Slot::Frame(k) => At {
            base: Reg::Fp,
            off: k as i64,
        },
    }
}

/// The second operand once ap has moved `by` cells.
fn side_of(second: Second, args: &[CellExpr], by: u64) -> Side
    requires small { by < 2 ^ 63 }
    requires fits { SecondFits by args.now second }
    ensures { result ≡ resolving.side_of by args.now second }
{
    match second {
        Second::Slot(slot) => Side::Cell(place(slot, args, by)),
        Second::Number(k) => Side::Imm(k),
    }
}

/// The expression of a term once ap has moved `by` cells, over the expressions of the arguments.
pub fn resolve(term: Term, args: &[CellExpr], by: u64) -> CellExpr
    requires small { by < 2 ^ 63 }
    requires fits { TermFits by args.now term }
    ensures { result ≡ resolving.resolve by args.now term }
{
    match term {
        Term::Whole(i) => lowered(argument(args, i), by),
        Term::Cell(slot) => CellExpr::Cell(place(slot, args, by)),
        Term::Behind(slot, k) => CellExpr::DoubleCell(place(slot, args, by), k as i16),
        Term::Word(k) => CellExpr::Imm(k),
        Term::Add(slot, second) => {
            CellExpr::Sum(place(slot, args, by), side_of(second, args, by))
        }
        Term::Sub(slot, second) => {
            CellExpr::Diff(place(slot, args, by), side_of(second, args, by))
        }
        Term::Mul(slot, second) => {
            CellExpr::Product(place(slot, args, by), side_of(second, args, by))
        }
    }
}
