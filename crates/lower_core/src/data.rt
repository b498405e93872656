//! Enums, structs, snapshots and boxes: fragments.

ghost use Rattle.std.specs.Prelude.{◌≡◌, ◌≤◌, ◌^◌, ◌+◌, ◌++◌, ◌∷◌, [], IfOk, OnOk};
ghost use Rattle.std.specs.List.{All};
ghost use Rattle.casm_word.specs.Expressions.{IsExprInField};
ghost use Rattle.cost_table.specs.Fits.{IsCloseExpr};
ghost use Rattle.cost_table.specs.Groups.{if_data};
ghost use Rattle.frag_plan.specs.Plan.{fragment};
ghost use Rattle.libfunc_registry.specs.Fam.{fam_of};
ghost use Rattle.libfunc_registry.specs.Wanted.{IsBelow, IsPlaced};
ghost use Rattle.lower_core.specs.Data.{box_plan, data_plan, match_plan};
ghost use Rattle.lower_core.specs.Tests as tests;

use crate::sizes::{size, variant_count};
use casm_word::{CellExpr, CellRef, Reg};
use cell_terms::{Second, Slot, Term, resolve};
use frag_code::{Frag, Piece};
use hint_source::Kind;
use libfunc_registry::Libfunc;
use lower_kit::{cell_at, push_boxed};
use std::alloc::{AllocError, Global};
use type_table::Types;

/// The fragment of a libfunc of this group, if it is one.
pub(crate) fn data(
    alloc: Global,
    types: &Types,
    libfunc: Libfunc,
    args: &[CellExpr],
) -> Result<Option<Frag>, AllocError>
    requires placed { IsPlaced types.now libfunc }
    requires close { All IsCloseExpr args.now }
    requires in_field { All IsExprInField args.now }
    ensures { IfOk result (λ made. made ≡ if_data (λ fam. fragment args.now (data_plan fam)) (fam_of types.now libfunc)) }
{
    let frag = match libfunc {
        Libfunc::EnumMatch(t) | Libfunc::EnumSnapshotMatch(t) => {
            matched(alloc, args, variant_count(types, t))?
        }
        Libfunc::IntoBox(t) => boxed(alloc, args, size(types, t))?,
        Libfunc::EnumInit(_, _)
        | Libfunc::StructConstruct(_)
        | Libfunc::StructDeconstruct(_)
        | Libfunc::StructSnapshotDeconstruct(_)
        | Libfunc::SnapshotTake(_)
        | Libfunc::Unbox(_) => Frag::from_pieces(alloc, &[Piece::Exit(0)])?,
        _ => return Ok(None),
    };
    Ok(Some(frag))
}

/// The box of a value of so many cells: the answer is a place, from which on the cells have the value's words.
fn boxed(alloc: Global, args: &[CellExpr], cells: u64) -> Result<Frag, AllocError>
    requires close { All IsCloseExpr args.now }
    requires in_field { All IsExprInField args.now }
    requires few { cells ≤ 2 ^ 14 }
    ensures { IfOk result (λ f. f ≡ fragment args.now (box_plan cells)) }
{
    let mut frag = Frag::new(alloc);
    frag.push(Piece::Hint {
        cell: cell_at(Slot::Own(0), args, 0),
        ask: Kind::Fresh,
    })?;
    frag.push(Piece::Reserve(1))?;
    push_boxed(&mut frag, args, cells)?;
    frag.push(Piece::Exit(0))?;
    Ok(frag)
}

/// The match of an enum of so many variants.
fn matched(alloc: Global, args: &[CellExpr], variants: u64) -> Result<Frag, AllocError>
    requires close { All IsCloseExpr args.now }
    requires few { variants ≤ 2 ^ 24 }
    ensures { IfOk result (λ f. f ≡ fragment args.now (match_plan variants)) }
{
    let mut frag = Frag::new(alloc);
    if variants < 2 {
        frag.push(Piece::Exit(0))?;
        return Ok(frag);
    }
    let last = variants - 2;
    push_tests(&mut frag, args, last)?;
    frag.push(Piece::IfNonZero(tested(args, last), (3 * last + 2) as u32))?;
    frag.push(Piece::Exit(last as u32))?;
    frag.push(Piece::Exit((last + 1) as u32))?;
    Ok(frag)
}

/// The cell that test i is of: the selector, and behind it the new cell below ap.
fn tested(args: &[CellExpr], i: u64) -> CellRef
    requires close { All IsCloseExpr args.now }
    requires few { i ≤ 2 ^ 24 }
    ensures { result ≡ tests.tested args.now i }
{
    if i == 0 {
        cell_at(Slot::Arg(0), args, 0)
    } else {
        cell_at(Slot::Own(i - 1), args, i)
    }
}

/// Adds the first tests, each with its exit and the selector less one more.
fn push_tests(frag: &mut Frag, args: &[CellExpr], count: u64) -> Result<(), AllocError>
    requires close { All IsCloseExpr args.now }
    requires few { count ≤ 2 ^ 24 }
    ensures { OnOk result (frag.new ≡ frag.old ++ tests.all_tests args.now count) }
{
    for i in 0..count {
        frag.push(Piece::IfNonZero(tested(args, i), (3 * i + 2) as u32))?;
        frag.push(Piece::Exit(i as u32))?;
        frag.push(Piece::Let(lessened(args, i)))?;
    }
    Ok(())
}

/// The word of the cell of test i, less 1.
fn lessened(args: &[CellExpr], i: u64) -> CellExpr
    requires close { All IsCloseExpr args.now }
    requires few { i ≤ 2 ^ 24 }
    ensures value { result ≡ tests.lessened args.now i }
    ensures in_field { IsExprInField result }
{
    let slot = if i == 0 {
        Slot::Arg(0)
    } else {
        Slot::Own(i - 1)
    };
    resolve(Term::Sub(slot, Second::Number(1)), args, i)
}
