//! The fragment of one libfunc of each form, piece by piece, over the types of one program.

ghost use Rattle.std.specs.Prelude.{◌≤ℤ◌, ◌^◌, pos};
ghost use Rattle.casm_word.specs.Expressions.{IsExprInField};
ghost use Rattle.casm_word.specs.Offset.{minus};
ghost use Rattle.cost_table.specs.Fits.{IsCloseExpr};

use casm_word::{At, CellExpr, CellRef, Reg, Side};
use frag_code::Piece;
use libfunc_registry::signature;
use lower_core::{is_core, lower};
use sierra_text::read;
use sierra_types::LibfuncDecl;
use std::alloc::{AllocError, Global};
use std::process::Abort;
use std::test::Fail;
use type_table::{Types, table};

/// The types.
const TYPES: &str =
    "type felt64 = felt64; type u8 = u8; type u16 = u16; type u32 = u32; type FeltNonZero = NonZero<felt64>;
type Pair = Struct<ut@Pair, felt64, felt64>; type Local = Uninitialized<Pair>; type PairBox = Box<Pair>;
type Many = Enum<ut@Many, u8, u16, u32, felt64>; type One = Enum<ut@One, u8>;
";

/// A libfunc, and behind `=` the pieces of its fragment over the cells from `[ap - 4]` on, and the amount 9.
const ROWS: &str = "jump = exit 0
rename<Pair> = exit 0
store_temp<Pair> = let ap:-4, let ap:-4, exit 0
store_temp<felt64> = let ap:-4, exit 0
store_local<Pair> = ap:-4 is ap:-2, ap:-3 is ap:-1, exit 0
finalize_locals = reserve 9, exit 0
felt64_const<-1> = exit 0
felt64_sub = exit 0
felt64_is_zero = if ap:-4 to 2, exit 0, exit 1
enum_match<One> = exit 0
enum_match<Many> = if ap:-4 to 2, exit 0, let ap:-4-1, if ap:-1 to 5, exit 1, let ap:-1-1, if ap:-1 to 8, exit 2, exit 3
enum_init<Many, 1> = exit 0
struct_deconstruct<Pair> = exit 0
into_box<Pair> = ask ap:0, reserve 1, ap:-5 is ap:-1@0, ap:-4 is ap:-1@1, exit 0
unbox<Pair> = exit 0
u8_eq = elsewhere";

fn push_name(alloc: Global, text: &mut String, base: Reg, off: i64) -> Result<(), AllocError> {
    let base = if base == Reg::Ap { "ap" } else { "fp" };
    text.push_str(&format!(in alloc; "{base}:{off}")?)
}

fn push_ref(alloc: Global, text: &mut String, cell: CellRef) -> Result<(), AllocError> {
    push_name(alloc, text, cell.reg, i64::from(cell.off))
}

fn push_expression(alloc: Global, text: &mut String, expr: CellExpr) -> Result<(), AllocError> {
    match expr {
        CellExpr::Cell(at) => push_name(alloc, text, at.base, at.off),
        CellExpr::DoubleCell(at, inner) => {
            push_name(alloc, text, at.base, at.off)?;
            text.push_str(&format!(in alloc; "@{inner}")?)
        }
        CellExpr::Imm(n) => text.push_str(&format!(in alloc; "{n}")?),
        CellExpr::Diff(at, Side::Imm(n)) => {
            push_name(alloc, text, at.base, at.off)?;
            text.push_str(&format!(in alloc; "-{n}")?)
        }
        _ => text.push_str("?"),
    }
}

fn push_piece(alloc: Global, text: &mut String, piece: &Piece) -> Result<(), AllocError> {
    match piece {
        Piece::Let(expr) => {
            text.push_str("let ")?;
            push_expression(alloc, text, *expr)
        }
        Piece::Reserve(n) => text.push_str(&format!(in alloc; "reserve {n}")?),
        Piece::Hint { cell, .. } => {
            text.push_str("ask ")?;
            push_ref(alloc, text, *cell)
        }
        Piece::Assert(cell, expr) => {
            push_ref(alloc, text, *cell)?;
            text.push_str(" is ")?;
            push_expression(alloc, text, *expr)
        }
        Piece::Range { .. } => text.push_str("range"),
        Piece::IfNonZero(cell, to) => {
            text.push_str("if ")?;
            push_ref(alloc, text, *cell)?;
            text.push_str(&format!(in alloc; " to {to}")?)
        }
        Piece::Exit(k) => text.push_str(&format!(in alloc; "exit {k}")?),
    }
}

/// The cell so far from ap.
fn cell(off: i64) -> CellExpr
    requires least { minus (2 ^ 14) ≤ℤ off }
    requires most { off ≤ℤ pos 0 }
    ensures close { IsCloseExpr result }
    ensures in_field { IsExprInField result }
{
    CellExpr::Cell(At { base: Reg::Ap, off })
}

/// The pieces, with commas between them.
fn listed(alloc: Global, pieces: &[Piece]) -> Result<String, AllocError> {
    let mut text = String::new(alloc);
    for piece in pieces {
        if !text.is_empty() {
            text.push_str(", ")?;
        }
        push_piece(alloc, &mut text, piece)?;
    }
    Ok(text)
}

/// The pieces of the fragment of a libfunc with this signature.
fn told(alloc: Global, types: &Types, libfunc: &LibfuncDecl) -> Result<String, Fail> {
    let args = [cell(-4), cell(-3), cell(-2), cell(-1)];
    let sig = signature(alloc, types, libfunc)?;
    if !is_core(sig.libfunc) {
        return Ok(String::from_str(alloc, "elsewhere")?);
    }
    let frag = lower(alloc, types, &sig, &args, 9)?;
    Ok(listed(alloc, frag.pieces())?)
}

/// The pieces of the fragment of a libfunc.
fn answer(alloc: Global, libfunc: &str) -> Result<String, Fail> {
    let text = format!(in alloc; "{TYPES}libfunc x = {libfunc};f@0() -> ();")?;
    let program = read(alloc, text.as_bytes())?;
    let types = table(alloc, &program)?;
    told(
        alloc,
        &types,
        program.libfuncs.items().first().ok_or("no libfunc")?,
    )
}

#[test]
fn one_of_each_form(rt: HostRuntime) -> Result<(), Fail> {
    let alloc = rt.alloc();
    for line in ROWS.lines() {
        let (libfunc, expected) = line.split_once('=').ok_or("no `=`")?;
        let told = answer(alloc, libfunc.trim())?;
        assert_eq!(rt; told.as_str(), expected.trim(), "{line}");
    }
    Ok(())
}
