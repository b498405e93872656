//! Programs that have places, with what is known at each statement. What is refused is in the page of the program `examples`.

ghost use Rattle.std.specs.Prelude.{◌≡◌, length};

use ap_refs::*;
use casm_word::{At, CellExpr, Reg, Side};
use libfunc_registry::signatures;
use linear_check::{Envs, annotate};
use sierra_text::read;
use std::alloc::{AllocError, Global};
use std::test::Fail;
use type_table::table;

/// The types and the libfuncs.
const DECLARED: &str =
    "type felt64 = felt64; type RC = RangeCheck; type NonZero = NonZero<felt64>; type Box = Box<felt64>;
type Pair = Struct<ut@Pair, felt64, felt64>; type Two = Enum<ut@Two, felt64, Pair>;
type Local = Uninitialized<felt64>; type Dict = Felt64Dict<felt64>; type Squashed = SquashedFelt64Dict<felt64>;
libfunc add = felt64_add; libfunc mul = felt64_mul; libfunc is_zero = felt64_is_zero;
libfunc unwrap = unwrap_non_zero<felt64>; libfunc dup = dup<felt64>; libfunc drop = drop<felt64>;
libfunc store = store_temp<felt64>; libfunc align = branch_align; libfunc jump = jump;
libfunc alloc = alloc_local<felt64>; libfunc finalize = finalize_locals; libfunc local = store_local<felt64>;
libfunc forget = drop<Local>; libfunc disable = disable_ap_tracking; libfunc call = function_call<user@main>;
libfunc box = into_box<felt64>; libfunc unbox = unbox<felt64>; libfunc store2 = store_temp<Pair>;
libfunc drop2 = drop<Pair>; libfunc big = enum_init<Two, 1>; libfunc either = enum_match<Two>;
libfunc storeTwo = store_temp<Two>; libfunc new = felt64_dict_new<felt64>;
libfunc squash = felt64_dict_squash<felt64>; libfunc dropS = drop<Squashed>; libfunc storeRC = store_temp<RC>;
";

/// Statements and functions, and behind `=` for each statement the change of ap, the local state and the variables with
/// their cells; then an empty line.
const PASSES: &str =
    "mul([0], [2]) -> ([0]); store([0]) -> ([0]); store2([1]) -> ([1]); drop([0]) -> (); return([1]);
main@0([0]: felt64, [1]: Pair, [2]: felt64) -> (Pair);
=
0 Before 0=fp-6 1=fp-5,fp-4 2=fp-3
0 Before 0=fp-6*fp-3 1=fp-5,fp-4
1 Before 0=ap-1 1=fp-5,fp-4
3 Before 0=ap-3 1=ap-2,ap-1
3 Before 1=ap-2,ap-1

store([0]) -> ([2]); store([1]) -> ([3]); call([2], [3]) -> ([4], [5]); store([5]) -> ([6]);
store([4]) -> ([7]); return([6], [7]); main@0([0]: felt64, [1]: felt64) -> (felt64, felt64);
=
0 Before 0=fp-4 1=fp-3
1 Before 1=fp-3 2=ap-1
2 Before 2=ap-2 3=ap-1
? Before 4=ap-2 5=ap-1
? Before 4=ap-3 6=ap-1
? Before 6=ap-2 7=ap-1

box([0]) -> ([1]); unbox([1]) -> ([2]); store([2]) -> ([2]); return([2]); main@0([0]: felt64) -> (felt64);
=
0 Before 0=fp-3
1 Before 1=ap-1
1 Before 2=*ap-1+0
2 Before 2=ap-1

either([0]) { fallthrough([1]) 4([2]) }; align() -> (); drop([1]) -> (); return(); align() -> ();
drop2([2]) -> (); return(); main@0([0]: Two) -> ();
=
0 Before 0=fp-5,fp-4,fp-3
0 Before 1=fp-3
0 Before 1=fp-3
0 Before
0 Before 2=fp-4,fp-3
0 Before 2=fp-4,fp-3
0 Before

big([0]) -> ([1]); storeTwo([1]) -> ([1]); return([1]); main@0([0]: Pair) -> (Two);
=
0 Before 0=fp-4,fp-3
0 Before 1=#1,fp-4,fp-3
3 Before 1=ap-3,ap-2,ap-1

alloc() -> ([1]); alloc() -> ([2]); finalize() -> (); local([2], [0]) -> ([3]); forget([1]) -> ();
store([3]) -> ([3]); return([3]); main@0([0]: felt64) -> (felt64);
=
0 Before 0=fp-3
0 Allocating 0 1 0=fp-3 1=fp0
0 Allocating 0 2 0=fp-3 1=fp0 2=fp1
2 Done 0=fp-3 1=fp0 2=fp1
2 Done 1=fp0 3=fp1
2 Done 3=fp1
3 Done 3=ap-1

store([0]) -> ([0]); alloc() -> ([1]); finalize() -> (); local([1], [0]) -> ([0]); drop([0]) -> (); return();
main@0([0]: felt64) -> ();
=
0 Before 0=fp-3
1 Before 0=ap-1
1 Allocating 1 1 0=ap-1 1=fp1
2 Done 0=ap-2 1=fp1
2 Done 0=fp1
2 Done

new() -> ([2]); squash([0], [2]) -> ([0], [3]); drop([1]) -> (); dropS([3]) -> (); storeRC([0]) -> ([0]);
return([0]); main@0([0]: RC, [1]: felt64) -> (RC);
=
0 Before 0=fp-4 1=fp-3
1 Before 0=fp-4 1=fp-3 2=ap-1,ap-1
? Before 0=ap-3 1=fp-3 3=ap-2,ap-1
? Before 0=ap-3 3=ap-2,ap-1
? Before 0=ap-3
? Before 0=ap-1

dup([0]) -> ([0], [1]); disable() -> (); store([0]) -> ([0]); call([0]) -> ([2]); add([1], [2]) -> ([3]);
store([3]) -> ([3]); return([3]); main@0([0]: felt64) -> (felt64);
=
0 Before 0=fp-3
0 Before 0=fp-3 1=fp-3
? Before 0=fp-3 1=fp-3
? Before 0=ap-1 1=fp-3
? Before 1=fp-3 2=ap-1
? Before 3=fp-3+ap-1
? Before 3=ap-1

is_zero([0]) { fallthrough() 5([1]) }; align() -> (); alloc() -> ([2]); forget([2]) -> (); jump() { 10() };
align() -> (); unwrap([1]) -> ([1]); drop([1]) -> (); alloc() -> ([2]); forget([2]) -> (); finalize() -> ();
return(); main@0([0]: felt64) -> ();
=
0 Before 0=fp-3
0 Before
0 Before
0 Allocating 0 1 2=fp0
0 Allocating 0 1
0 Before 1=fp-3
0 Before 1=fp-3
0 Before 1=fp-3
0 Before
0 Allocating 0 1 2=fp0
0 Allocating 0 1
1 Done";

/// Adds the cell at a register and an offset.
fn push_at(alloc: Global, text: &mut String, at: At) -> Result<(), AllocError> {
    let base = match at.base {
        Reg::Ap => "ap",
        Reg::Fp => "fp",
    };
    let off = at.off;
    text.push_str(&format!(in alloc; "{base}{off}")?)?;
    Ok(())
}

/// Adds a cell, a mark and an operand.
fn push_two(
    alloc: Global,
    text: &mut String,
    at: At,
    mark: &str,
    side: Side,
) -> Result<(), AllocError> {
    push_at(alloc, text, at)?;
    text.push_str(mark)?;
    match side {
        Side::Cell(at) => push_at(alloc, text, at)?,
        Side::Imm(n) => text.push_str(&format!(in alloc; "#{n}")?)?,
    }
    Ok(())
}

/// Adds an expression.
fn push_cell(alloc: Global, text: &mut String, cell: CellExpr) -> Result<(), AllocError> {
    match cell {
        CellExpr::Cell(at) => push_at(alloc, text, at),
        CellExpr::DoubleCell(at, inner) => {
            text.push_str("*")?;
            push_at(alloc, text, at)?;
            text.push_str(&format!(in alloc; "+{inner}")?)?;
            Ok(())
        }
        CellExpr::Imm(n) => {
            text.push_str(&format!(in alloc; "#{n}")?)?;
            Ok(())
        }
        CellExpr::Sum(at, side) => push_two(alloc, text, at, "+", side),
        CellExpr::Diff(at, side) => push_two(alloc, text, at, "-", side),
        CellExpr::Product(at, side) => push_two(alloc, text, at, "*", side),
    }
}

/// Adds a variable's cells.
fn push_cells(alloc: Global, text: &mut String, cells: &[CellExpr]) -> Result<(), AllocError> {
    for (k, cell) in cells.iter().enumerate() {
        if k > 0 {
            text.push_str(",")?;
        }
        push_cell(alloc, text, *cell)?;
    }
    Ok(())
}

/// Adds the change of ap and the local state of a statement.
fn push_state(
    alloc: Global,
    text: &mut String,
    ap: Option<u64>,
    locals: Locals,
) -> Result<(), AllocError> {
    match ap {
        Some(ap) => text.push_str(&format!(in alloc; "{ap}")?)?,
        None => text.push_str("?")?,
    }
    match locals {
        Locals::Before => text.push_str(" Before")?,
        Locals::Allocating { start, cells } => {
            text.push_str(&format!(in alloc; " Allocating {start} {cells}")?)?;
        }
        Locals::Done => text.push_str(" Done")?,
    }
    Ok(())
}

/// What is known at each statement.
fn listed(alloc: Global, places: &Places, envs: &Envs, count: usize) -> Result<String, AllocError>
    requires places { length places.now ≡ count }
    requires envs { length envs.now ≡ count }
{
    let mut text = String::new(alloc);
    for s in 0..count {
        push_state(alloc, &mut text, places.ap(s), places.locals(s))?;
        for (variable, _) in envs.held(s) {
            let variable = *variable;
            text.push_str(&format!(in alloc; " {variable}=")?)?;
            if let Some(cells) = places.cells(s, variable) {
                push_cells(alloc, &mut text, cells.items())?;
            }
        }
        text.push_str("\n")?;
    }
    Ok(text)
}

/// What is known at each statement of a program.
fn answer(alloc: Global, text: &str) -> Result<String, Fail> {
    let program = read(alloc, text.as_bytes())?;
    let types = table(alloc, &program)?;
    let sigs = signatures(alloc, &types, program.libfuncs.items())?;
    let envs = annotate(alloc, &program, &types, sigs.items())?;
    let count = program.statements.items().len();
    let found = places(alloc, &program, &types, sigs.items(), &envs)?;
    Ok(listed(alloc, &found, &envs, count)?)
}

#[test]
fn passes(rt: HostRuntime) -> Result<(), Fail> {
    for row in PASSES.split("\n\n") {
        let (text, expected) = row.split_once('=').ok_or("no `=`")?;
        let text = format!(in rt.alloc(); "{DECLARED}{text}")?;
        let told = answer(rt.alloc(), &text)?;
        assert_eq!(rt; told.trim(), expected.trim(), "{row}");
    }
    Ok(())
}
