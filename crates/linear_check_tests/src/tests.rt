//! Programs that pass, with what each statement has. What is refused is in the page of the program `examples`.

ghost use Rattle.std.specs.Prelude.{◌≡◌, length};

use libfunc_registry::signatures;
use linear_check::*;
use sierra_text::read;
use std::alloc::{AllocError, Global};
use std::test::Fail;
use type_table::table;

/// The types and the libfuncs.
const DECLARED: &str =
    "type felt64 = felt64; type u8 = u8; type RC = RangeCheck; type NonZero = NonZero<felt64>;
type Dict = Felt64Dict<felt64>; type One = Enum<ut@One, felt64>; type Two = Enum<ut@Two, felt64, u8>;
libfunc const = felt64_const<7>; libfunc byte = u8_const<1>; libfunc add = felt64_add;
libfunc is_zero = felt64_is_zero; libfunc unwrap = unwrap_non_zero<felt64>; libfunc dup = dup<felt64>;
libfunc drop = drop<felt64>; libfunc drop8 = drop<u8>; libfunc store = store_temp<felt64>;
libfunc align = branch_align; libfunc jump = jump; libfunc only = enum_match<One>;
libfunc either = enum_match<Two>;
";

/// Statements and functions, and behind `=` for each statement its function and its variables with the positions of their
/// types; then an empty line.
const PASSES: &str = "return(); return(); main@1() -> (); f1@0() -> ();
=
1
0

const() -> ([1]); add([0], [1]) -> ([2]); store([2]) -> ([3]); return([3]); main@0([0]: felt64) -> (felt64);
=
0 0:0
0 0:0 1:0
0 2:0
0 3:0

dup([0]) -> ([1], [0]); return([1], [0]); main@0([0]: felt64) -> (felt64, felt64);
=
0 0:0
0 0:0 1:0

only([0]) -> ([1]); return([1]); main@0([0]: One) -> (felt64);
=
0 0:5
0 1:0

is_zero([0]) { fallthrough() 5([1]) }; align() -> (); const() -> ([2]); store([2]) -> ([2]); jump() { 7() };
align() -> (); unwrap([1]) -> ([2]); return([2]); main@0([0]: felt64) -> (felt64);
=
0 0:0
0
0
0 2:0
0 2:0
0 1:3
0 1:3
0 2:0

align() -> (); drop8([1]) -> (); return(); either([0]) { fallthrough([2]) 0([1]) }; align() -> ();
drop([2]) -> (); return(); main@3([0]: Two) -> ();
=
0 1:1
0 1:1
0
0 0:6
0 2:0
0 2:0
0";

/// What each statement has.
fn listed(alloc: Global, envs: &Envs, count: usize) -> Result<String, AllocError>
    requires { length envs.now ≡ count }
{
    let mut text = String::new(alloc);
    for s in 0..count {
        let function = envs.function_of(s);
        text.push_str(&format!(in alloc; "{function}")?)?;
        for (variable, of_type) in envs.held(s) {
            let position = of_type.0;
            text.push_str(&format!(in alloc; " {variable}:{position}")?)?;
        }
        text.push_str("\n")?;
    }
    Ok(text)
}

/// What each statement of a program has.
fn answer(alloc: Global, text: &str) -> Result<String, Fail> {
    let program = read(alloc, text.as_bytes())?;
    let types = table(alloc, &program)?;
    let sigs = signatures(alloc, &types, program.libfuncs.items())?;
    let envs = annotate(alloc, &program, &types, sigs.items())?;
    Ok(listed(alloc, &envs, program.statements.items().len())?)
}

#[test]
fn passes(rt: HostRuntime) -> Result<(), Fail> {
    for row in PASSES.split("\n\n") {
        let (text, expected) = row.split_once('=').ok_or("no `=`")?;
        let text = format!(in rt.alloc(); "{DECLARED}{text}")?;
        let told = answer(rt.alloc(), &text)?;
        assert_eq!(rt; told.trim(), expected.trim(), "{row}");
    }
    Ok(())
}
