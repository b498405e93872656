//! The checks in their order.

ghost use Rattle.std.specs.Prelude.{◌≡◌, ◌≢◌, ℕ, ◌≤◌, ◌^◌, length, Ok, IfOk, IfErr};
ghost use Rattle.type_table.specs.Table.{HasTypes};
ghost use Rattle.libfunc_registry.specs.Signature.{HasSignatures};
ghost use Rattle.linear_check.specs.Typed.{Typed};
ghost use Rattle.entry_check.specs.Entry.{entry_of};
ghost use Rattle.ap_refs.specs.Prepared.{IsTypedProgram};
ghost use Rattle.ap_refs.specs.Placed.{Placed, PlacedList};
ghost use Rattle.gas_solver.specs.Plans.{IsPlan};
ghost use Rattle.program_checks.specs.Checks.{Finds, Refused, accepted_by};
ghost use Rattle.program_checks.specs.Parts.{IsPlanned, IsStated};
ghost use Rattle.program_checks.specs.declared.refusal.Refusal.TheVariants as refusals;

use crate::refusal::Refusal;
use ap_refs::{Places, RefFault, places};
use entry_check::check_entry;
use gas_solver::{Accepted, GasFault, GasPlan, solve};
use libfunc_registry::{Sig, SigFault, signatures};
use linear_check::{Envs, LinearFault, annotate};
use sierra_types::{List, Program};
use std::alloc::Global;
use type_table::{TypeFault, Types, table};

/// What the checks found of a program that passes them.
#[derive(Debug, Drop)]
pub struct Checked {
    /// Its types and functions.
    pub types: Types,
    /// The signature of each declared libfunc, in their order.
    pub signatures: List<Sig>,
    /// The function and the typed variables of each statement.
    pub envs: Envs,
    /// The position of main, where a run begins.
    pub main: usize,
    /// The places of each statement's variables.
    pub places: Places,
    /// What each statement needs of gas, and a run to begin.
    pub plan: GasPlan,
}

/// What is found of a program behind its types.
struct Coded {
    signatures: List<Sig>,
    stated: Stated,
}

/// What is found behind the signatures.
struct Stated {
    envs: Envs,
    planned: Planned,
}

/// What is found behind the typed variables.
struct Planned {
    main: usize,
    places: Places,
    plan: GasPlan,
}

impl Checked {
    /// The program of which it was found, with it, but for the places.
    #[tactic(auto, using(crate::proofs::Accepting::found_accepted))]
    pub fn accept(self, program: Program) -> Accepted
        requires { Finds program self }
        ensures { result ≡ accepted_by program self }
    {
        Accepted::new(
            program,
            self.types,
            self.signatures,
            self.envs,
            self.plan,
            self.main,
        )
    }
}

/// What the checks find of a program, which has at most `2^20` statements, or its first refusal.
pub fn check(alloc: Global, program: &Program) -> Result<Checked, Refusal>
    requires { length program.now.statements ≤ 2 ^ 20 }
    ensures passes { IfOk result (λ checked. Finds program.now checked) }
    ensures refused { IfErr result (λ refusal. refusal ≢ refusals.Memory → Refused program.now refusal) }
{
    let types = check_types(alloc, program)?;
    let Coded { signatures, stated } = check_code(alloc, program, &types)?;
    let Stated { envs, planned } = stated;
    let Planned { main, places, plan } = planned;
    Ok(Checked {
        types,
        signatures,
        envs,
        main,
        places,
        plan,
    })
}

/// What is found behind the types. Each part is looked for by a function of its own, so that what was found before it is let go
/// at one place.
fn check_code(alloc: Global, program: &Program, types: &Types) -> Result<Coded, Refusal>
    requires few { length program.now.statements ≤ 2 ^ 20 }
    requires types { HasTypes program.now types.now }
    ensures passes { IfOk result (λ coded. HasSignatures types.now program.now.libfuncs coded.signatures × IsStated program.now types.now coded.signatures coded.stated) }
    ensures refused { IfErr result (λ refusal. refusal ≢ refusals.Memory → Refused program.now refusal) }
{
    let signatures = check_libfuncs(alloc, program, types)?;
    let stated = check_stated(alloc, program, types, signatures.items())?;
    Ok(Coded { signatures, stated })
}

/// What is found behind the signatures.
fn check_stated(
    alloc: Global,
    program: &Program,
    types: &Types,
    sigs: &[Sig],
) -> Result<Stated, Refusal>
    requires few { length program.now.statements ≤ 2 ^ 20 }
    requires types { HasTypes program.now types.now }
    requires signatures { HasSignatures types.now program.now.libfuncs sigs.now }
    ensures passes { IfOk result (IsStated program.now types.now sigs.now) }
    ensures refused { IfErr result (λ refusal. refusal ≢ refusals.Memory → Refused program.now refusal) }
{
    let envs = check_statements(alloc, program, types, sigs)?;
    let planned = check_planned(alloc, program, types, sigs, &envs)?;
    Ok(Stated { envs, planned })
}

/// What is found behind the typed variables.
fn check_planned(
    alloc: Global,
    program: &Program,
    types: &Types,
    sigs: &[Sig],
    envs: &Envs,
) -> Result<Planned, Refusal>
    requires { IsTypedProgram program.now types.now sigs.now envs.now }
    ensures passes { IfOk result (IsPlanned program.now types.now sigs.now) }
    ensures refused { IfErr result (λ refusal. refusal ≢ refusals.Memory → Refused program.now refusal) }
{
    let main = match check_entry(program, types) {
        Ok(main) => main,
        Err(fault) => return Err(Refusal::Entry(fault)),
    };
    let places = check_places(alloc, program, types, sigs, envs)?;
    let plan = check_gas(alloc, program, types, sigs, envs, main)?;
    Ok(Planned { main, places, plan })
}

/// The types and functions of a program.
fn check_types(alloc: Global, program: &Program) -> Result<Types, Refusal>
    ensures passes { IfOk result (λ types. HasTypes program.now types) }
    ensures refused { IfErr result (λ refusal. refusal ≢ refusals.Memory → Refused program.now refusal) }
{
    match table(alloc, program) {
        Ok(types) => Ok(types),
        Err(TypeFault::Memory) => Err(Refusal::Memory),
        Err(fault) => Err(Refusal::Types(fault)),
    }
}

/// The signatures of its libfuncs.
fn check_libfuncs(alloc: Global, program: &Program, types: &Types) -> Result<List<Sig>, Refusal>
    requires { HasTypes program.now types.now }
    ensures passes { IfOk result (λ sigs. HasSignatures types.now program.now.libfuncs sigs) }
    ensures refused { IfErr result (λ refusal. refusal ≢ refusals.Memory → Refused program.now refusal) }
{
    match signatures(alloc, types, program.libfuncs.items()) {
        Ok(sigs) => Ok(sigs),
        Err(SigFault::Memory) => Err(Refusal::Memory),
        Err(fault) => Err(Refusal::Libfuncs(fault)),
    }
}

/// The functions and variables of its statements.
fn check_statements(
    alloc: Global,
    program: &Program,
    types: &Types,
    sigs: &[Sig],
) -> Result<Envs, Refusal>
    requires types { HasTypes program.now types.now }
    requires signatures { HasSignatures types.now program.now.libfuncs sigs.now }
    ensures passes { IfOk result (λ envs. Typed program.now types.now sigs.now envs) }
    ensures refused { IfErr result (λ refusal. refusal ≢ refusals.Memory → Refused program.now refusal) }
{
    match annotate(alloc, program, types, sigs) {
        Ok(envs) => Ok(envs),
        Err(LinearFault::Memory) => Err(Refusal::Memory),
        Err(fault) => Err(Refusal::Statements(fault)),
    }
}

/// The places of its variables, where main is known.
fn check_places(
    alloc: Global,
    program: &Program,
    types: &Types,
    sigs: &[Sig],
    envs: &Envs,
) -> Result<Places, Refusal>
    requires typed { IsTypedProgram program.now types.now sigs.now envs.now }
    requires main { (main : ℕ) × (entry_of program.now types.now ≡ Ok main) }
    ensures passes { IfOk result (Placed program.now types.now sigs.now) }
    ensures refused { IfErr result (λ refusal. refusal ≢ refusals.Memory → Refused program.now refusal) }
{
    match places(alloc, program, types, sigs, envs) {
        Ok(places) => Ok(places),
        Err(RefFault::Memory) => Err(Refusal::Memory),
        Err(fault) => Err(Refusal::Places(fault)),
    }
}

/// Its gas plan, where its places are known.
#[tactic(auto, using(crate::proofs::Entries::entry_below))]
fn check_gas(
    alloc: Global,
    program: &Program,
    types: &Types,
    sigs: &[Sig],
    envs: &Envs,
    main: usize,
) -> Result<GasPlan, Refusal>
    requires typed { IsTypedProgram program.now types.now sigs.now envs.now }
    requires main { entry_of program.now types.now ≡ Ok main }
    requires placed { (places : PlacedList) × Placed program.now types.now sigs.now places }
    ensures passes { IfOk result (IsPlan program.now types.now sigs.now main) }
    ensures refused { IfErr result (λ refusal. refusal ≢ refusals.Memory → Refused program.now refusal) }
{
    match solve(alloc, program, types, sigs, envs, main) {
        Ok(plan) => Ok(plan),
        Err(GasFault::Memory) => Err(Refusal::Memory),
        Err(fault) => Err(Refusal::Gas(fault)),
    }
}
