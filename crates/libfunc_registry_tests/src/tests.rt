//! What each family takes and gives, over the types of one program. Which declarations are refused is in the page of the
//! program `examples`.

use libfunc_registry::*;
use sierra_text::read;
use sierra_types::List;
use std::alloc::{AllocError, Global};
use std::test::Fail;
use type_table::{TypeId, table};
use type_trees::Num;

/// The types.
const TYPES: &str =
    "type felt64 = felt64; type u8 = u8; type u16 = u16; type u32 = u32; type RC = RangeCheck; type Gas = GasBuiltin;
type FeltNonZero = NonZero<felt64>; type U8NonZero = NonZero<u8>; type Box = Box<felt64>;
type Array = Array<felt64>; type View = Snapshot<Array>; type Local = Uninitialized<felt64>;
type Pair = Struct<ut@Pair, felt64, Array>; type PairView = Snapshot<Pair>;
type Either = Enum<ut@Either, felt64, Array>; type EitherView = Snapshot<Either>; type Dict = Felt64Dict<u8>;
type Entry = Felt64DictEntry<u8>; type Squashed = SquashedFelt64Dict<u8>;
type Access = Struct<ut@Tuple, felt64, u8, u8>; type Accesses = Array<Access>;
";

/// A function.
const FUNCTION: &str = "f@0([0]: felt64, [1]: u8) -> (u8);";

/// Libfuncs, and behind `=` the positions of the types that each takes and, behind each `->`, that a branch gives.
const SIGNATURES: &str = "branch_align = ->
jump = ->
rename<RC> = 4 -> 4
dup<felt64> = 0 -> 0 0
drop<Array> = 9 ->
drop<Local> = 11 ->
store_temp<Pair> = 12 -> 12
store_local<felt64> = 11 0 -> 0
alloc_local<felt64> = -> 11
finalize_locals = ->
disable_ap_tracking = ->
enable_ap_tracking = ->
function_call<user@f> = 0 1 -> 1
withdraw_gas = 4 5 -> 4 5 -> 4 5
felt64_const<0> = -> 0
felt64_const<18446744069414584320> = -> 0
felt64_const<-1> = -> 0
felt64_const<-18446744069414584320> = -> 0
u8_const<255> = -> 1
u16_const<65535> = -> 2
u32_const<4294967295> = -> 3
felt64_add = 0 0 -> 0
felt64_sub = 0 0 -> 0
felt64_mul = 0 0 -> 0
felt64_is_zero = 0 -> -> 6
u8_is_zero = 1 -> -> 7
unwrap_non_zero<felt64> = 6 -> 0
unwrap_non_zero<u8> = 7 -> 1
u8_to_felt64 = 1 -> 0
u32_to_felt64 = 3 -> 0
u16_try_from_felt64 = 4 0 -> 4 2 -> 4
u32_try_from_felt64 = 4 0 -> 4 3 -> 4
u16_overflowing_add = 4 2 2 -> 4 2 -> 4 2
u8_overflowing_sub = 4 1 1 -> 4 1 -> 4 1
u8_wide_mul = 1 1 -> 2
u16_wide_mul = 2 2 -> 3
u32_split_mul = 4 3 3 -> 4 3 3
u8_safe_divmod = 4 1 7 -> 4 1 1
u8_eq = 1 1 -> ->
upcast<u8, u8> = 1 -> 1
upcast<u8, u32> = 1 -> 3
downcast<u16, u8> = 4 2 -> 4 1 -> 4
downcast<u32, u8> = 4 3 -> 4 1 -> 4
enum_init<Either, 0> = 0 -> 14
enum_init<Either, 1> = 9 -> 14
enum_match<Either> = 14 -> 0 -> 9
enum_snapshot_match<Either> = 15 -> 0 -> 10
struct_construct<Pair> = 0 9 -> 12
struct_deconstruct<Pair> = 12 -> 0 9
struct_snapshot_deconstruct<Pair> = 13 -> 0 10
struct_snapshot_deconstruct<Access> = 19 -> 0 1 1
snapshot_take<Array> = 9 -> 9 10
snapshot_take<felt64> = 0 -> 0 0
into_box<felt64> = 0 -> 8
unbox<felt64> = 8 -> 0
array_new<felt64> = -> 9
array_new<Access> = -> 20
array_append<felt64> = 9 0 -> 9
array_len<felt64> = 10 -> 3
array_get<felt64> = 4 10 3 -> 4 8 -> 4
array_pop_front<felt64> = 9 -> 9 8 -> 9
felt64_dict_new<u8> = -> 16
felt64_dict_entry_get<u8> = 4 16 0 -> 4 17 1
felt64_dict_entry_finalize<u8> = 17 1 -> 16
felt64_dict_squash<u8> = 4 16 -> 4 18
squashed_felt64_dict_entries<u8> = 18 -> 20";

/// The signature of a libfunc.
fn declared(alloc: Global, libfunc: &str) -> Result<Sig, Fail> {
    let text = format!(in alloc; "{TYPES}libfunc x = {libfunc};{FUNCTION}")?;
    let program = read(alloc, text.as_bytes())?;
    let types = table(alloc, &program)?;
    let libfunc = program.libfuncs.items().first().ok_or("no libfunc")?;
    Ok(signature(alloc, &types, libfunc)?)
}

/// The positions of types, each behind a blank.
fn positions(alloc: Global, types: &List<TypeId>) -> Result<String, AllocError> {
    let mut text = String::new(alloc);
    for t in types.items() {
        let position = t.0;
        text.push_str(&format!(in alloc; " {position}")?)?;
    }
    Ok(text)
}

/// What a libfunc takes, and behind each `->` what a branch gives.
fn written(alloc: Global, sig: &Sig) -> Result<String, AllocError> {
    let mut text = positions(alloc, &sig.params)?;
    for branch in sig.branches.items() {
        text.push_str(" ->")?;
        text.push_str(&positions(alloc, branch)?)?;
    }
    Ok(text)
}

#[test]
fn takes_and_gives(rt: HostRuntime) -> Result<(), Fail> {
    for line in SIGNATURES.lines() {
        let (libfunc, expected) = line.split_once('=').ok_or("no `=`")?;
        let told = written(rt.alloc(), &declared(rt.alloc(), libfunc)?)?;
        assert_eq!(rt; told.trim(), expected.trim(), "{line}");
    }
    Ok(())
}

#[test]
fn libfuncs(rt: HostRuntime) -> Result<(), Fail> {
    let negative = declared(rt.alloc(), "felt64_const<-1>")?.libfunc;
    assert_eq!(rt; negative, Libfunc::Const(Num::Felt64, 18446744069414584320));
    let narrowed = declared(rt.alloc(), "downcast<u16, u8>")?.libfunc;
    assert_eq!(rt; narrowed, Libfunc::Downcast(Width::W16, Width::W8));
    assert_eq!(rt; Width::W16.bits(), 16);
    assert_eq!(rt; Width::W16.num(), Num::U16);
    Ok(())
}

#[test]
fn lists(rt: HostRuntime) -> Result<(), Fail> {
    let text = b"type felt64 = felt64; libfunc a = felt64_const<-1>; libfunc b = felt64_add;";
    let program = read(rt.alloc(), text)?;
    let types = table(rt.alloc(), &program)?;
    let sigs = signatures(rt.alloc(), &types, program.libfuncs.items())?;
    assert_eq!(rt; sigs.items().len(), 2);
    Ok(())
}
