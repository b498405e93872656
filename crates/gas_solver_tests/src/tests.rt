//! The plan of a program that withdraws gas in a loop, as it is read off and as it is printed, and a fault. Other programs
//! are in the page of the program `examples`.

ghost use Rattle.std.specs.Prelude.{◌<◌};

use gas_solver::*;
use libfunc_registry::signatures;
use linear_check::annotate;
use sierra_text::read;
use std::alloc::Global;
use std::test::Fail;
use type_table::table;

/// A loop that withdraws.
const LOOP: &str = "type RC = RangeCheck; type Gas = GasBuiltin;
libfunc withdraw = withdraw_gas; libfunc align = branch_align; libfunc jump = jump;
libfunc store_check = store_temp<RC>; libfunc store_gas = store_temp<Gas>;
withdraw([0], [1]) { fallthrough([0], [1]) 5([0], [1]) };
align() -> (); store_check([0]) -> ([0]); store_gas([1]) -> ([1]); jump() { 0() };
align() -> (); store_check([0]) -> ([0]); store_gas([1]) -> ([1]); return([0], [1]);
main@0([0]: RC, [1]: Gas) -> (RC, Gas);";

/// Its plan.
const PLAN: &str = "entry 1170
0 need 1070 amount 1370
1 need 1370
2 need 1370
3 need 1270
4 need 1170
5 need 300
6 need 300
7 need 200
8 need 100
";

/// A loop that doesn't.
const ENDLESS: &str = "libfunc jump = jump; jump() { 0() }; main@0() -> ();";

/// The plan of a program whose first function is main, or the fault of its gas.
fn plan(alloc: Global, text: &str) -> Result<Result<GasPlan, GasFault>, Fail> {
    let program = read(alloc, text.as_bytes())?;
    let types = table(alloc, &program)?;
    let sigs = signatures(alloc, &types, program.libfuncs.items())?;
    let envs = annotate(alloc, &program, &types, sigs.items())?;
    if program.functions.items().is_empty() {
        return Err("no function".into());
    }
    Ok(solve(alloc, &program, &types, sigs.items(), &envs, 0))
}

#[test]
fn a_plan(rt: HostRuntime) -> Result<(), Fail> {
    let plan = plan(rt.alloc(), LOOP)??;
    assert_eq!(rt; print(rt.alloc(), &plan)?.as_str(), PLAN);
    assert_eq!(rt; (plan.entry(), plan.len()), (1170, 9));
    assert!(rt; plan.len() > 1);
    assert_eq!(rt; (plan.need(0), plan.amount(0)), (1070, Some(1370)));
    assert_eq!(rt; (plan.need(1), plan.amount(1)), (1370, None));
    Ok(())
}

#[test]
fn a_cycle(rt: HostRuntime) -> Result<(), Fail> {
    let fault = plan(rt.alloc(), ENDLESS)?.err();
    assert!(rt; matches!(&fault, Some(GasFault::Cycle(cycle)) if cycle.items() == [0].as_slice()));
    Ok(())
}
