//! Each family's costs and result expressions, branch by branch, over the types of one program.

use casm_word::{At, CellExpr, Reg, Side};
use cost_table::*;
use libfunc_registry::signature;
use sierra_text::read;
use sierra_types::LibfuncDecl;
use std::alloc::{AllocError, Global};
use std::process::Abort;
use std::test::Fail;
use type_table::{Types, table};

/// The types.
const TYPES: &str =
    "type felt64 = felt64; type u8 = u8; type u16 = u16; type u32 = u32; type RC = RangeCheck; type Gas = GasBuiltin;
type FeltNonZero = NonZero<felt64>; type U16NonZero = NonZero<u16>; type Array = Array<felt64>;
type View = Snapshot<Array>; type Pair = Struct<ut@Pair, felt64, Array>; type PairView = Snapshot<Pair>;
type Local = Uninitialized<Pair>; type PairBox = Box<Pair>; type PairViewBox = Box<PairView>;
type Pairs = Array<Pair>; type PairsView = Snapshot<Pairs>; type Either = Enum<ut@Either, felt64, Pair>;
type EitherView = Snapshot<Either>; type Many = Enum<ut@Many, u8, u16, u32, felt64>;
type One = Enum<ut@One, Array>; type Nothing = Struct<ut@Tuple>; type FeltDict = Felt64Dict<felt64>;
type FeltEntry = Felt64DictEntry<felt64>; type Dict = Felt64Dict<u8>; type Entry = Felt64DictEntry<u8>;
type Squashed = SquashedFelt64Dict<u8>; type Access = Struct<ut@Tuple, felt64, u8, u8>;
type Accesses = Array<Access>;
";

/// A function.
const FUNCTION: &str = "f@0([0]: felt64, [1]: u8) -> (u8, Pair);";

/// Libfuncs, the expressions of the arguments' cells, an amount, and behind `=` for each branch steps, range checks, holes and
/// the change of ap, and behind `:` the expressions of the results' cells.
///
/// `ap:-3` is a cell, `ap:-3@1` the cell one behind where it points, `7` a number; `+`, `-` and `*` join a cell and a
/// second operand.
const CONTROL_TO_INTEGERS: &str = "branch_align |  | 0 = 0/0/0/0:
jump |  | 0 = 1/0/0/0:
rename<Pair> | ap:-5 7 fp:-3+9 | 0 = 0/0/0/0: ap:-5 7 fp:-3+9
dup<felt64> | ap:-2+ap:-1 | 0 = 0/0/0/0: ap:-2+ap:-1 ap:-2+ap:-1
drop<Array> | ap:-2 ap:-1 | 0 = 0/0/0/0:
store_temp<Pair> | ap:-5 7 fp:-3+9 | 0 = 3/0/0/3: ap:-3 ap:-2 ap:-1
store_temp<Nothing> |  | 0 = 0/0/0/0:
store_local<Pair> | fp:4 fp:5 fp:6 ap:-5 7 fp:-3+9 | 0 = 3/0/0/0: fp:4 fp:5 fp:6
alloc_local<Pair> |  | 4 = 0/0/3/0: fp:4 fp:5 fp:6
finalize_locals |  | 9 = 1/0/0/0:
disable_ap_tracking |  | 0 = 0/0/0/0:
enable_ap_tracking |  | 0 = 0/0/0/0:
function_call<user@f> | ap:-2 ap:-1 | 0 = 1/0/0/?: ap:-4 ap:-3 ap:-2 ap:-1
withdraw_gas | fp:-3 ap:-1 | 1000 = 5/1/0/4: fp:-3+1 ap:-1; 7/1/0/4: fp:-3+1 ap:-5
felt64_const<-1> |  | 0 = 0/0/0/0: 18446744069414584320
u8_const<255> |  | 0 = 0/0/0/0: 255
felt64_add | ap:-2 fp:3 | 0 = 0/0/0/0: ap:-2+fp:3
felt64_sub | ap:-2 11 | 0 = 0/0/0/0: ap:-2-11
felt64_mul | fp:-4 ap:-9 | 0 = 0/0/0/0: fp:-4*ap:-9
felt64_is_zero | ap:-1 | 0 = 2/0/0/0:; 2/0/0/0: ap:-1
unwrap_non_zero<u16> | ap:-1 | 0 = 0/0/0/0: ap:-1
u8_to_felt64 | 5 | 0 = 0/0/0/0: 5
u32_try_from_felt64 | ap:-1 fp:-4 | 0 = 6/2/0/6: ap:-7+2 fp:-4; 12/3/0/6: ap:-7+3
u16_overflowing_add | ap:-3 ap:-2 ap:-1 | 0 = 6/1/0/3: ap:-6+1 ap:-1; 6/1/0/3: ap:-6+1 ap:-1
u8_overflowing_sub | fp:-5 ap:-2 ap:-1 | 0 = 5/1/0/5: fp:-5+1 ap:-1; 8/1/0/5: fp:-5+1 ap:-1
u8_wide_mul | ap:-2 200 | 0 = 0/0/0/0: ap:-2*200
u16_wide_mul | ap:-2 ap:-1 | 0 = 0/0/0/0: ap:-2*ap:-1
u32_split_mul | ap:-3 ap:-2 ap:-1 | 0 = 8/3/0/5: ap:-8+3 ap:-2 ap:-1
u16_safe_divmod | ap:-3 ap:-2 ap:-1 | 0 = 8/3/0/5: ap:-8+3 ap:-2 ap:-1
u8_eq | ap:-2 ap:-1 | 0 = 3/0/0/1:; 3/0/0/1:
upcast<u8, u32> | ap:-1+1 | 0 = 0/0/0/0: ap:-1+1
downcast<u32, u8> | ap:-2 fp:-3 | 0 = 5/1/0/2: ap:-4+1 fp:-3; 5/1/0/2: ap:-4+1";

/// The same of the other groups.
const DATA_TO_DICTIONARIES: &str = "enum_init<Either, 0> | ap:-1 | 0 = 0/0/0/0: 0 0 0 ap:-1
enum_init<Either, 1> | ap:-5 7 fp:-3+9 | 0 = 0/0/0/0: 1 ap:-5 7 fp:-3+9
enum_match<Either> | ap:-4 ap:-3 8 fp:2 | 0 = 2/0/0/0: fp:2; 2/0/0/0: ap:-3 8 fp:2
enum_match<One> | ap:-3 ap:-2 ap:-1 | 0 = 0/0/0/0: ap:-2 ap:-1
enum_match<Many> | ap:-2 ap:-1 | 0 = 2/0/0/0: ap:-1; 4/0/0/1: ap:-2; 6/0/0/2: ap:-3; 6/0/0/2: ap:-3
enum_snapshot_match<Either> | ap:-4 ap:-3 8 fp:2 | 0 = 2/0/0/0: fp:2; 2/0/0/0: ap:-3 8 fp:2
struct_construct<Pair> | ap:-5 7 fp:-3+9 | 0 = 0/0/0/0: ap:-5 7 fp:-3+9
struct_deconstruct<Pair> | ap:-5 7 fp:-3+9 | 0 = 0/0/0/0: ap:-5 7 fp:-3+9
struct_snapshot_deconstruct<Pair> | ap:-5 7 fp:-3+9 | 0 = 0/0/0/0: ap:-5 7 fp:-3+9
snapshot_take<Pair> | ap:-5 7 fp:-3+9 | 0 = 0/0/0/0: ap:-5 7 fp:-3+9 ap:-5 7 fp:-3+9
into_box<Pair> | ap:-3 ap:-2 ap:-1 | 0 = 4/0/0/1: ap:-1
unbox<Pair> | fp:-3 | 0 = 0/0/0/0: fp:-3@0 fp:-3@1 fp:-3@2
array_new<Pair> |  | 0 = 1/0/0/1: ap:-1 ap:-1
array_append<Pair> | 7 ap:-4 ap:-3 ap:-2 ap:-1 | 0 = 3/0/0/0: 7 ap:-4+3
array_len<Pair> | ap:-2 ap:-1 | 0 = 3/0/0/2: ap:-1
array_get<Pair> | ap:-4 ap:-3 ap:-2 ap:-1 | 0 = 10/1/0/7: ap:-11+1 ap:-1; 7/1/0/7: ap:-11+1
array_pop_front<Pair> | ap:-2 fp:-3 | 0 = 3/0/0/1: ap:-3+3 fp:-3 ap:-3; 3/0/0/1: ap:-3 fp:-3
felt64_dict_new<u8> |  | 0 = 1/0/0/1: ap:-1 ap:-1
felt64_dict_entry_get<u8> | ap:-4 ap:-3 ap:-2 ap:-1 | 0 = 106/12/0/2: ap:-6+2 ap:-5 ap:-4 ap:-1
felt64_dict_entry_get<felt64> | ap:-4 ap:-3 ap:-2 ap:-1 | 0 = 103/10/0/1: ap:-5 ap:-4 ap:-3 ap:-1
felt64_dict_entry_finalize<u8> | ap:-3 ap:-2 ap:-1 | 0 = 1/0/0/0: ap:-3 ap:-2+3
felt64_dict_squash<u8> | ap:-3 ap:-2 ap:-1 | 0 = 60/5/0/?: ap:-3 ap:-2 ap:-1
squashed_felt64_dict_entries<u8> | ap:-2 ap:-1 | 0 = 0/0/0/0: ap:-2 ap:-1";

/// The cell that is written so.
fn cell(text: &str) -> At {
    let (base, off) = text.split_once(':').unwrap_or(("", ""));
    At {
        base: if base == "ap" { Reg::Ap } else { Reg::Fp },
        off: off.parse().unwrap_or(0),
    }
}

/// The cell, number or sum that is written so.
fn expression(text: &str) -> CellExpr {
    match text.split_once('+') {
        Some((left, right)) if right.contains(':') => {
            CellExpr::Sum(cell(left), Side::Cell(cell(right)))
        }
        Some((left, right)) => CellExpr::Sum(cell(left), Side::Imm(right.parse().unwrap_or(0))),
        None if text.contains(':') => CellExpr::Cell(cell(text)),
        None => CellExpr::Imm(text.parse().unwrap_or(0)),
    }
}

fn push_cell(alloc: Global, text: &mut String, at: At) -> Result<(), AllocError> {
    let base = if at.base == Reg::Ap { "ap" } else { "fp" };
    let off = at.off;
    text.push_str(&format!(in alloc; "{base}:{off}")?)
}

fn push_side(
    alloc: Global,
    text: &mut String,
    sign: &str,
    at: At,
    side: Side,
) -> Result<(), AllocError> {
    push_cell(alloc, text, at)?;
    text.push_str(sign)?;
    match side {
        Side::Cell(other) => push_cell(alloc, text, other),
        Side::Imm(n) => text.push_str(&format!(in alloc; "{n}")?),
    }
}

fn push_expression(alloc: Global, text: &mut String, expr: CellExpr) -> Result<(), AllocError> {
    match expr {
        CellExpr::Cell(at) => push_cell(alloc, text, at),
        CellExpr::DoubleCell(at, inner) => {
            push_cell(alloc, text, at)?;
            text.push_str(&format!(in alloc; "@{inner}")?)
        }
        CellExpr::Imm(n) => text.push_str(&format!(in alloc; "{n}")?),
        CellExpr::Sum(at, side) => push_side(alloc, text, "+", at, side),
        CellExpr::Diff(at, side) => push_side(alloc, text, "-", at, side),
        CellExpr::Product(at, side) => push_side(alloc, text, "*", at, side),
    }
}

fn push_cost(alloc: Global, text: &mut String, cost: Cost) -> Result<(), AllocError> {
    let (steps, checks, holes) = (cost.steps, cost.checks, cost.holes);
    text.push_str(&format!(in alloc; "{steps}/{checks}/{holes}/")?)?;
    match cost.ap {
        ApChange::Known(n) => text.push_str(&format!(in alloc; "{n}:")?),
        ApChange::Unknown => text.push_str("?:"),
    }
}

/// The expressions of a text.
fn expressions(alloc: Global, text: &str) -> Result<Vec<CellExpr>, AllocError> {
    let mut all = Vec::new(alloc);
    for word in text.split_whitespace() {
        all.push(expression(word))?;
    }
    Ok(all)
}

/// What the calls tell of a libfunc for these arguments and this amount.
fn told(
    alloc: Global,
    types: &Types,
    libfunc: &LibfuncDecl,
    args: &[CellExpr],
    amount: u64,
) -> Result<String, Fail> {
    let mut text = String::new(alloc);
    if !are_close(args) || amount > 1000 {
        return Ok(text);
    }
    let sig = signature(alloc, types, libfunc)?;
    for branch in 0..sig.branches.items().len() {
        if branch > 0 {
            text.push_str("; ")?;
        }
        push_cost(alloc, &mut text, cost(types, &sig, branch))?;
        for expr in &results(alloc, types, &sig, args, amount, branch)? {
            text.push_str(" ")?;
            push_expression(alloc, &mut text, *expr)?;
        }
    }
    Ok(text)
}

/// What the calls tell of the libfunc, the arguments and the amount of a row.
fn answer(alloc: Global, row: &str) -> Result<String, Fail> {
    let mut parts = row.split('|');
    let libfunc = parts.next().unwrap_or("");
    let args = expressions(alloc, parts.next().unwrap_or(""))?;
    let amount = parts.next().unwrap_or("").trim().parse()?;
    let text = format!(in alloc; "{TYPES}libfunc x = {libfunc};{FUNCTION}")?;
    let program = read(alloc, text.as_bytes())?;
    let types = table(alloc, &program)?;
    let libfunc = program.libfuncs.items().first().ok_or("no libfunc")?;
    told(alloc, &types, libfunc, &args, amount)
}

/// Checks what the calls tell of each row.
fn check(rt: &impl Abort, alloc: Global, rows: &str) -> Result<(), Fail> {
    for line in rows.lines() {
        let (row, expected) = line.split_once('=').ok_or("no `=`")?;
        let told = answer(alloc, row)?;
        assert_eq!(rt; told.trim(), expected.trim(), "{line}");
    }
    Ok(())
}

#[test]
fn control_to_integers(rt: HostRuntime) -> Result<(), Fail> {
    check(&rt, rt.alloc(), CONTROL_TO_INTEGERS)
}

#[test]
fn data_to_dictionaries(rt: HostRuntime) -> Result<(), Fail> {
    check(&rt, rt.alloc(), DATA_TO_DICTIONARIES)
}
