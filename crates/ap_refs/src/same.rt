//! Where two predecessors differ.

ghost use Rattle.std.specs.Prelude.{◌≡◌, length};
ghost use Rattle.held_list.specs.Editing.{differ};
ghost use Rattle.ap_refs.specs.Flow as flow;

use crate::cells::Cells;
use crate::fault::RefFault;
use crate::place::Locals;
use crate::stored::Stored;
use casm_word::{At, CellExpr, Reg, Side};

fn same_reg(a: Reg, b: Reg) -> bool
    ensures { result ≡ flow.same_reg a b }
{
    match (a, b) {
        (Reg::Ap, Reg::Ap) => true,
        (Reg::Fp, Reg::Fp) => true,
        _ => false,
    }
}

fn same_at(a: At, b: At) -> bool
    ensures { result ≡ flow.same_at a b }
{
    same_reg(a.base, b.base) && a.off == b.off
}

fn same_side(a: Side, b: Side) -> bool
    ensures { result ≡ flow.same_side a b }
{
    match (a, b) {
        (Side::Cell(a), Side::Cell(b)) => same_at(a, b),
        (Side::Imm(n), Side::Imm(m)) => n == m,
        _ => false,
    }
}

fn same_expr(a: CellExpr, b: CellExpr) -> bool
    ensures { result ≡ flow.same_expr a b }
{
    match (a, b) {
        (CellExpr::Cell(a), CellExpr::Cell(b)) => same_at(a, b),
        (CellExpr::DoubleCell(a, i), CellExpr::DoubleCell(b, j)) => same_at(a, b) && i == j,
        (CellExpr::Imm(n), CellExpr::Imm(m)) => n == m,
        (CellExpr::Sum(a, s), CellExpr::Sum(b, t)) => same_at(a, b) && same_side(s, t),
        (CellExpr::Diff(a, s), CellExpr::Diff(b, t)) => same_at(a, b) && same_side(s, t),
        (CellExpr::Product(a, s), CellExpr::Product(b, t)) => same_at(a, b) && same_side(s, t),
        _ => false,
    }
}

fn same_cells(left: &[CellExpr], right: &[CellExpr]) -> bool
    ensures { result ≡ flow.same_cells left.now right.now }
{
    let (mut left, mut right) = (left, right);
    while let [a, xs @ ..] = left {
        let [b, ys @ ..] = right else {
            return false;
        };
        if !same_expr(*a, *b) {
            return false;
        }
        (left, right) = (xs, ys);
    }
    right.is_empty()
}

fn same_locals(a: Locals, b: Locals) -> bool
    ensures { result ≡ flow.same_locals a b }
{
    match (a, b) {
        (Locals::Before, Locals::Before) => true,
        (Locals::Allocating { start: s, cells: n }, Locals::Allocating { start: t, cells: m }) => s
            == t
            && n == m,
        (Locals::Done, Locals::Done) => true,
        _ => false,
    }
}

fn same_ap(a: Option<u64>, b: Option<u64>) -> bool
    ensures { result ≡ flow.same_ap a b }
{
    match (a, b) {
        (None, None) => true,
        (Some(a), Some(b)) => a == b,
        _ => false,
    }
}

/// The least variable that only one of the two holds, or whose cells differ.
fn first_difference(left: &[(u64, Cells)], right: &[(u64, Cells)]) -> Option<u64>
    ensures { result ≡ differ flow.same_cells left.now right.now }
{
    let (mut left, mut right) = (left, right);
    while let ([x, xs @ ..], [y, ys @ ..]) = (left, right) {
        if x.0 != y.0 || !same_cells(x.1.items(), y.1.items()) {
            return Some(x.0.min(y.0));
        }
        (left, right) = (xs, ys);
    }
    Some(left.first().or(right.first())?.0)
}

/// Why what a statement gives doesn't agree with what its target has.
pub(crate) fn clash(statement: u64, given: &Stored, had: &Stored) -> Option<RefFault>
    ensures { result ≡ flow.clash statement given.now had.now }
{
    let (cells, others) = (given.pairs(), had.pairs());
    match first_difference(cells.items(), others.items()) {
        Some(variable) => Some(RefFault::MergeDiffers {
            statement,
            variable: Some(variable),
        }),
        None if same_ap(given.ap(), had.ap()) && same_locals(given.locals(), had.locals()) => None,
        None => Some(RefFault::MergeDiffers {
            statement,
            variable: None,
        }),
    }
}
