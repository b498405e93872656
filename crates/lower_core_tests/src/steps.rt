//! The fragment of each family, run by the machine's steps over cells that a row lays, and the words of its results.

ghost use Rattle.std.specs.Prelude.{◌<◌, ◌≡◌, IsTrue, length};
ghost use Rattle.std.specs.List.{All};
ghost use Rattle.casm_word.specs.Expressions.{IsExprInField};
ghost use Rattle.cost_table.specs.Fits.{IsCloseExpr, IsSignature};
ghost use Rattle.libfunc_registry.specs.Fam.{fam_of};
ghost use Rattle.lower_core.specs.Core.{IsCore};

use crate::emitting::{AT, EXITS, are_in_field, emitted, falls_through};
use crate::laws::core_is_shaped;
use casm_word::{At, CellExpr, Code, Reg, Side, words};
use cost_table::{are_close, results};
use felt64::Felt;
use frag_code::Emitted;
use libfunc_registry::{Sig, signature};
use lower_core::{is_core, lower};
use ro_machine::{Memory, State, StepFault, step};
use sierra_text::read;
use sierra_types::LibfuncDecl;
use std::alloc::{AllocError, Global};
use std::process::Abort;
use std::test::Fail;
use type_table::{Types, table};

/// The types.
const TYPES: &str =
    "type felt64 = felt64; type u8 = u8; type u16 = u16; type u32 = u32; type FeltNonZero = NonZero<felt64>;
type E = Struct<ut@E>; type Pair = Struct<ut@Pair, felt64, felt64>; type Nest = Struct<ut@Nest, Pair, E, u8>;
type Maybe = Enum<ut@Maybe, felt64, E>; type Either = Enum<ut@Either, u8, Nest, E>; type One = Enum<ut@One, u8>;
type Many = Enum<ut@Many, u8, u16, u32, felt64>; type Array = Array<felt64>; type View = Snapshot<Array>;
type Held = Enum<ut@Held, Array, u8>; type HeldView = Snapshot<Held>; type Keeper = Struct<ut@Keeper, Array, u8>;
type KeeperView = Snapshot<Keeper>; type Local = Uninitialized<Pair>; type EitherLocal = Uninitialized<Either>;
type EmptyLocal = Uninitialized<E>; type FeltBox = Box<felt64>; type PairBox = Box<Pair>; type EitherBox = Box<Either>;
";

/// ap and fp at the begin of a fragment.
const AP: u64 = 1000;

const FP: u64 = 900;

/// How many cells the locals take, and where a local begins.
const AMOUNT: u64 = 3;

/// A libfunc, the expressions of its arguments' cells, and the cells of the memory beside the code, in runs: the address of
/// the first one, and their words. Behind `=` the branch, ap, and the words of the results' cells, `-` where a cell isn't
/// listed; or why the run is stuck.
const CONTROL: &str = "branch_align | | = 0, ap 1000:
jump | | = 0, ap 1000:
rename<Pair> | ap:-2 ap:-1 | 998 7 8 = 0, ap 1000: 7 8
dup<Pair> | ap:-2 5 | 998 7 8 = 0, ap 1000: 7 5 7 5
drop<Pair> | ap:-2 ap:-1 | 998 7 8 = 0, ap 1000:
disable_ap_tracking | | = 0, ap 1000:
enable_ap_tracking | | = 0, ap 1000:
store_temp<felt64> | ap:-1 | 999 0 0 = 0, ap 1001: 0
store_temp<felt64> | ap:-1 | 999 18446744069414584320 18446744069414584320 = 0, ap 1001: 18446744069414584320
store_temp<felt64> | ap:-1 | 999 0 1 = stuck: 1 isn't 0
store_temp<felt64> | ap:-1 | 999 7 = stuck: no cell 1000
store_temp<Pair> | ap:-2 ap:-1 | 998 7 8 7 8 = 0, ap 1002: 7 8
store_temp<Pair> | ap:-2 ap:-1 | 998 7 8 8 7 = stuck: 8 isn't 7
store_temp<Pair> | ap:-2 ap:-1 | 998 7 8 7 9 = stuck: 9 isn't 8
store_temp<Pair> | ap:-1+3 18446744069414584320 | 999 8 11 18446744069414584320 = 0, ap 1002: 11 18446744069414584320
store_temp<Pair> | fp:3 ap:-1@1 | 903 7, 999 2000 7 8, 2001 8 = 0, ap 1002: 7 8
store_temp<E> | | = 0, ap 1000:
store_temp<Either> | ap:-4 ap:-3 ap:-2 ap:-1 | 996 0 0 0 9 0 0 0 9 = 0, ap 1004: 0 0 0 9
store_temp<Either> | ap:-4 ap:-3 ap:-2 ap:-1 | 996 0, 999 9 0 0 0 9 = stuck: no cell 997
store_local<Pair> | fp:3 fp:4 ap:-2 ap:-1 | 903 7 8, 998 7 8 = 0, ap 1000: 7 8
store_local<Pair> | fp:3 fp:4 0 ap:-1@1 | 903 0 8, 999 2000, 2001 8 = 0, ap 1000: 0 8
store_local<Pair> | fp:3 fp:4 ap:-2 ap:-1 | 904 7 8, 998 7 8 = stuck: no cell 903
store_local<Pair> | fp:3 fp:4 ap:-2 ap:-1 | 903 0 7 8, 998 7 8 = stuck: 0 isn't 7
store_local<Pair> | fp:3 fp:4 ap:-2 ap:-1 | 903 7 9, 998 7 8 = stuck: 9 isn't 8
store_local<E> | | = 0, ap 1000:
store_local<Either> | fp:3 fp:4 fp:5 fp:6 ap:-4 ap:-3 ap:-2 ap:-1 | 903 2 0 0 0, 996 2 = stuck: no cell 997
alloc_local<Pair> | | 902 6 7 8 9 = 0, ap 1000: 7 8
alloc_local<Pair> | | = 0, ap 1000: - -
finalize_locals | | = 0, ap 1003:";

const FELTS: &str = "felt64_const<0> | | = 0, ap 1000: 0
felt64_const<-1> | | = 0, ap 1000: 18446744069414584320
u8_const<255> | | = 0, ap 1000: 255
u32_const<4294967295> | | = 0, ap 1000: 4294967295
felt64_add | ap:-2 ap:-1 | 998 5 7 = 0, ap 1000: 12
felt64_add | ap:-2 ap:-1 | 998 18446744069414584320 1 = 0, ap 1000: 0
felt64_add | ap:-1 18446744069414584320 | 999 18446744069414584320 = 0, ap 1000: 18446744069414584319
felt64_sub | ap:-2 ap:-1 | 998 7 5 = 0, ap 1000: 2
felt64_sub | ap:-2 ap:-1 | 998 0 1 = 0, ap 1000: 18446744069414584320
felt64_sub | ap:-1 5 | 999 3 = 0, ap 1000: 18446744069414584319
felt64_sub | ap:-2 ap:-1 | 998 3 18446744069414584320 = 0, ap 1000: 4
felt64_mul | ap:-2 ap:-1 | 998 18446744069414584320 18446744069414584320 = 0, ap 1000: 1
felt64_mul | fp:0 4294967296 | 900 4294967296 = 0, ap 1000: 4294967295
felt64_mul | ap:-2 ap:-1 | 998 0 18446744069414584320 = 0, ap 1000: 0
felt64_is_zero | ap:-1 | 999 0 = 0, ap 1000:
felt64_is_zero | ap:-1 | 999 1 = 1, ap 1000: 1
felt64_is_zero | fp:2 | 902 18446744069414584320 = 1, ap 1000: 18446744069414584320
felt64_is_zero | ap:-1 | 998 0 = stuck: no cell 999
unwrap_non_zero<felt64> | ap:-1 | 999 18446744069414584320 = 0, ap 1000: 18446744069414584320";

const DATA: &str = "enum_init<Either, 0> | ap:-1 | 999 9 = 0, ap 1000: 0 0 0 9
enum_init<Either, 1> | ap:-3 ap:-2 ap:-1 | 997 7 8 5 = 0, ap 1000: 1 7 8 5
enum_init<Either, 2> | | = 0, ap 1000: 2 0 0 0
enum_match<One> | ap:-2 ap:-1 | 998 0 9 = 0, ap 1000: 9
enum_match<Maybe> | ap:-2 ap:-1 | 998 0 18446744069414584320 = 0, ap 1000: 18446744069414584320
enum_match<Maybe> | ap:-2 ap:-1 | 998 1 = 1, ap 1000:
enum_match<Either> | ap:-4 ap:-3 ap:-2 ap:-1 | 996 0 0 0 9 = 0, ap 1000: 9
enum_match<Either> | ap:-4 ap:-3 ap:-2 ap:-1 | 996 0, 999 9 = 0, ap 1000: 9
enum_match<Either> | ap:-4 ap:-3 ap:-2 ap:-1 | 996 1 7 8 5 0 = 1, ap 1001: 7 8 5
enum_match<Either> | ap:-4 ap:-3 ap:-2 ap:-1 | 996 2, 1000 1 = 2, ap 1001:
enum_match<Either> | ap:-4 ap:-3 ap:-2 ap:-1 | 996 1 7 8 5 1 = stuck: 1 isn't 0
enum_match<Either> | ap:-4 ap:-3 ap:-2 ap:-1 | 996 2, 1000 0 = stuck: 0 isn't 1
enum_match<Many> | ap:-2 ap:-1 | 998 0 9 = 0, ap 1000: 9
enum_match<Many> | ap:-2 ap:-1 | 998 1 9 0 = 1, ap 1001: 9
enum_match<Many> | fp:1 fp:2 | 901 2 9, 1000 1 0 = 2, ap 1002: 9
enum_match<Many> | ap:-2 ap:-1 | 998 3 9 2 1 = 3, ap 1002: 9
enum_match<Many> | ap:-2 ap:-1 | 998 3 9 3 1 = stuck: 3 isn't 2
enum_match<Many> | ap:-2 ap:-1 | 998 3 9 2 0 = stuck: 0 isn't 1
enum_snapshot_match<Either> | ap:-4 ap:-3 ap:-2 ap:-1 | 996 1 7 8 5 0 = 1, ap 1001: 7 8 5
enum_snapshot_match<Held> | ap:-3 ap:-2 ap:-1 | 997 0 3000 3001 = 0, ap 1000: 3000 3001
enum_snapshot_match<Held> | ap:-3 ap:-2 ap:-1 | 997 1, 999 9 = 1, ap 1000: 9
struct_construct<Nest> | ap:-3 ap:-2 ap:-1 | 997 7 8 5 = 0, ap 1000: 7 8 5
struct_construct<E> | | = 0, ap 1000:
struct_deconstruct<Nest> | ap:-3 ap:-2 ap:-1 | 997 7 8 5 = 0, ap 1000: 7 8 5
struct_deconstruct<E> | | = 0, ap 1000:
struct_snapshot_deconstruct<Keeper> | ap:-3 ap:-2 ap:-1 | 997 3000 3001 5 = 0, ap 1000: 3000 3001 5
snapshot_take<Pair> | ap:-2 4 | 998 7 = 0, ap 1000: 7 4 7 4
into_box<felt64> | ap:-1 | 999 0 2000, 2000 0 = 0, ap 1001: 2000
into_box<Pair> | ap:-2 ap:-1 | 998 7 8 2000, 2000 7 8 = 0, ap 1001: 2000
into_box<Pair> | ap:-2 ap:-1 | 998 7 8 998 = 0, ap 1001: 998
into_box<Pair> | ap:-2 ap:-1 | 998 7 8 1999, 1999 0 7 8 = stuck: 7 isn't 0
into_box<Pair> | ap:-2 ap:-1 | 998 7 8 1999, 2000 7 8 = stuck: no cell 1999
into_box<Pair> | ap:-2 ap:-1 | 998 7 8 2001, 2000 7 8 = stuck: 7 isn't 8
into_box<Pair> | ap:-2 ap:-1 | 998 7 8 2000, 2000 7 9 = stuck: 8 isn't 9
into_box<Either> | ap:-4 ap:-3 ap:-2 ap:-1 | 996 0, 999 9 2000, 2000 0 0 0 9 = stuck: no cell 997
unbox<Pair> | ap:-1 | 999 2000, 2000 7 8 = 0, ap 1000: 7 8
unbox<Pair> | fp:0 | 900 18446744069414584320, 0 8, 18446744069414584320 7 = 0, ap 1000: 7 8
unbox<Pair> | ap:-1 | 999 2000, 2000 7 = 0, ap 1000: 7 -";

fn felt(n: u64) -> Felt {
    Felt::reduce(u128::from(n))
}

fn number(text: &str) -> Result<Felt, Fail> {
    let n: u64 = text.parse()?;
    Ok(felt(n))
}

/// The cell that is written so.
fn cell(text: &str) -> At {
    let (base, off) = text.split_once(':').unwrap_or(("", ""));
    At {
        base: if base == "ap" { Reg::Ap } else { Reg::Fp },
        off: off.parse().unwrap_or(0),
    }
}

/// The cell, the cell behind where one points, the sum of a cell and a number, or the number that is written so.
fn expression(text: &str) -> CellExpr {
    if let Some((at, inner)) = text.split_once('@') {
        return CellExpr::DoubleCell(cell(at), inner.parse().unwrap_or(0));
    }
    if let Some((at, n)) = text.split_once('+') {
        return CellExpr::Sum(cell(at), Side::Imm(n.parse().unwrap_or(0)));
    }
    if text.contains(':') {
        return CellExpr::Cell(cell(text));
    }
    CellExpr::Imm(text.parse().unwrap_or(0))
}

fn expressions(alloc: Global, text: &str) -> Result<Vec<CellExpr>, AllocError> {
    let mut exprs = Vec::new(alloc);
    for word in text.split_whitespace() {
        exprs.push(expression(word))?;
    }
    Ok(exprs)
}

/// Lays words from an address on.
fn lay_run(memory: &mut Memory, run: &str) -> Result<(), Fail> {
    let mut words = run.split_whitespace();
    let Some(first) = words.next() else {
        return Ok(());
    };
    let mut address = number(first)?;
    for word in words {
        memory.insert(address, number(word)?)?;
        address = address.add(felt(1));
    }
    Ok(())
}

fn lay_runs(memory: &mut Memory, runs: &str) -> Result<(), Fail> {
    for run in runs.split(',') {
        lay_run(memory, run)?;
    }
    Ok(())
}

/// Lays the words of the code, and the cell that the machine reads for unused operands.
fn lay_code(memory: &mut Memory, words: &[u64]) -> Result<(), Fail> {
    memory.insert(felt(FP).sub(felt(1)), felt(0))?;
    let mut address = felt(AT);
    for word in words {
        memory.insert(address, felt(*word))?;
        address = address.add(felt(1));
    }
    Ok(())
}

/// The branches whose exits are these cells: where the code falls through, the cell behind it is that of branch 0.
fn exits(falls_through: bool, code_cells: usize) -> [u64; 4] {
    if falls_through {
        [AT.saturating_add(code_cells as u64), 0, 0, 0]
    } else {
        EXITS
    }
}

/// Steps until the pc is one of the exits, or 50 of them: the branch, and the last state.
fn run(memory: &Memory, exits: &[u64]) -> Result<(Option<usize>, State), StepFault> {
    let mut state = State {
        pc: felt(AT),
        ap: felt(AP),
        fp: felt(FP),
    };
    for _ in 0..50 {
        let branch = exits.iter().position(|exit| *exit == state.pc.value());
        if branch.is_some() {
            return Ok((branch, state));
        }
        state = step(memory, state)?;
    }
    Ok((None, state))
}

/// The address so far from another one.
fn moved(base: Felt, off: i64) -> Felt {
    let distance = felt(off.unsigned_abs());
    if off < 0 {
        base.sub(distance)
    } else {
        base.add(distance)
    }
}

fn address(state: State, at: At) -> Felt {
    match at.base {
        Reg::Ap => moved(state.ap, at.off),
        Reg::Fp => moved(state.fp, at.off),
    }
}

fn side_word(memory: &Memory, state: State, side: Side) -> Option<Felt> {
    match side {
        Side::Cell(at) => memory.get(address(state, at)),
        Side::Imm(n) => Some(felt(n)),
    }
}

/// The word of an expression, if its cells are listed.
fn word(memory: &Memory, state: State, expr: CellExpr) -> Option<Felt> {
    match expr {
        CellExpr::Cell(at) => memory.get(address(state, at)),
        CellExpr::DoubleCell(at, inner) => {
            let pointer = memory.get(address(state, at))?;
            memory.get(moved(pointer, i64::from(inner)))
        }
        CellExpr::Imm(n) => Some(felt(n)),
        CellExpr::Sum(at, side) => {
            let left = memory.get(address(state, at))?;
            Some(left.add(side_word(memory, state, side)?))
        }
        CellExpr::Diff(at, side) => {
            let left = memory.get(address(state, at))?;
            Some(left.sub(side_word(memory, state, side)?))
        }
        CellExpr::Product(at, side) => {
            let left = memory.get(address(state, at))?;
            Some(left.mul(side_word(memory, state, side)?))
        }
    }
}

/// The branch, ap, and the words of the expressions.
fn reached(
    alloc: Global,
    memory: &Memory,
    state: State,
    branch: usize,
    exprs: &[CellExpr],
) -> Result<String, AllocError> {
    let ap = state.ap.value();
    let mut text = format!(in alloc; "{branch}, ap {ap}:")?;
    for expr in exprs {
        match word(memory, state, *expr) {
            Some(word) => {
                let word = word.value();
                text.push_str(&format!(in alloc; " {word}")?)?;
            }
            None => text.push_str(" -")?,
        }
    }
    Ok(text)
}

fn stuck(alloc: Global, fault: StepFault) -> Result<String, AllocError> {
    match fault {
        StepFault::CellMissing(cell) => {
            let cell = cell.value();
            format!(in alloc; "stuck: no cell {cell}")
        }
        StepFault::AssertFails(dst, res) => {
            let (dst, res) = (dst.value(), res.value());
            format!(in alloc; "stuck: {dst} isn't {res}")
        }
        StepFault::BadWord(_) => String::from_str(alloc, "stuck: no instruction"),
        StepFault::CallFails(_, _) => String::from_str(alloc, "stuck: a call"),
    }
}

/// Where the run over the memory ends.
fn ended(
    alloc: Global,
    types: &Types,
    sig: &Sig,
    args: &[CellExpr],
    memory: &Memory,
    exits: &[u64],
) -> Result<String, AllocError>
    requires signature { IsSignature types.now sig.now }
    requires close { All IsCloseExpr args.now }
{
    match run(memory, exits) {
        Ok((Some(branch), state)) if branch < sig.branches.items().len() => {
            let exprs = results(alloc, types, sig, args, AMOUNT, branch)?;
            reached(alloc, memory, state, branch, &exprs)
        }
        Ok(_) => String::from_str(alloc, "no branch"),
        Err(fault) => stuck(alloc, fault),
    }
}

/// The code of the fragment of a libfunc, and whether it falls through.
fn lowered(
    alloc: Global,
    types: &Types,
    sig: &Sig,
    args: &[CellExpr],
) -> Result<(Option<Emitted>, bool), AllocError>
    requires signature { IsSignature types.now sig.now }
    requires core { IsCore (fam_of types.now sig.now.libfunc) }
    requires close { All IsCloseExpr args.now }
    requires in_field { All IsExprInField args.now }
{
    core_is_shaped();
    let frag = lower(alloc, types, sig, args, AMOUNT)?;
    let falls = falls_through(&frag);
    Ok((emitted(alloc, &frag)?, falls))
}

/// The memory with the code and the cells of a row.
fn laid(alloc: Global, words: &[u64], cells: &str) -> Result<Memory, Fail> {
    let mut memory = Memory::new(alloc);
    lay_code(&mut memory, words)?;
    lay_runs(&mut memory, cells)?;
    Ok(memory)
}

/// What the code of a libfunc with this signature comes to.
fn told(
    alloc: Global,
    types: &Types,
    libfunc: &LibfuncDecl,
    args: &[CellExpr],
    cells: &str,
) -> Result<String, Fail> {
    let sig = signature(alloc, types, libfunc)?;
    if !is_core(sig.libfunc) || !are_close(args) || !are_in_field(args) {
        return Ok(String::from_str(alloc, "not lowered here")?);
    }
    let (code, falls) = lowered(alloc, types, &sig, args)?;
    let words = code_words(alloc, code)?;
    let memory = laid(alloc, &words, cells)?;
    let exits = exits(falls, words.len());
    Ok(ended(alloc, types, &sig, args, &memory, &exits)?)
}

fn code_words(alloc: Global, code: Option<Emitted>) -> Result<Vec<u64>, Fail> {
    let code = code.ok_or("not emitted")?;
    Ok(words(alloc, &code.code)?)
}

/// What a row comes to.
fn answer(alloc: Global, row: &str) -> Result<String, Fail> {
    let (libfunc, rest) = row.split_once('|').ok_or("no `|`")?;
    let (args, cells) = rest.split_once('|').ok_or("no second `|`")?;
    let text = format!(in alloc; "{TYPES}libfunc x = {libfunc};f@0() -> ();")?;
    let program = read(alloc, text.as_bytes())?;
    let types = table(alloc, &program)?;
    let args = expressions(alloc, args)?;
    let libfunc = program.libfuncs.items().first().ok_or("no libfunc")?;
    told(alloc, &types, libfunc, &args, cells)
}

#[test]
fn each_family_runs(rt: HostRuntime) -> Result<(), Fail> {
    let alloc = rt.alloc();
    for line in CONTROL.lines().chain(FELTS.lines()).chain(DATA.lines()) {
        let (row, expected) = line.split_once('=').ok_or("no `=`")?;
        let told = answer(alloc, row)?;
        assert_eq!(rt; told.as_str(), expected.trim(), "{line}");
    }
    Ok(())
}
