//! The steps of one statement: arguments are taken, results added, and shapes compared.

ghost use Rattle.std.specs.Prelude.{◌≡◌, ◌+◌, ◌^◌, ◌<◌, ◌++◌, ◌∷◌, [], map, nat_lt, IfOk, OnOk};
ghost use Rattle.std.specs.List.{list_all};
ghost use Rattle.linear_check.specs.Flow as flow;
ghost use Rattle.linear_check.specs.Statements as statements;
ghost use Rattle.linear_check.specs.Prepared.{Answers, AnswersExactly};

use crate::fault::LinearFault;
use held_list::{AddFault, Held, HeldMap, HeldSteps, MANY};
use libfunc_registry::{Libfunc, Sig};
use sierra_types::{Branch, List, Name, Target};
use std::alloc::{AllocError, Global};
use std::mem;
use type_table::TypeId;

/// Takes variables of these types out, one after another.
pub(crate) fn take_all(
    alloc: Global,
    statement: u64,
    variables: &[u64],
    types: &[TypeId],
    held: &mut Held<TypeId>,
) -> Result<(), LinearFault>
    ensures { Answers (flow.taken statement variables.now types.now held.old) result held.new }
{
    if variables.len() < MANY {
        return take_each(statement, variables, types, held);
    }
    let mut map = HeldMap::of(alloc, mem::replace(held, Held::new(alloc)))?;
    take_each(statement, variables, types, &mut map)?;
    *held = map.into_held(alloc)?;
    Ok(())
}

/// The same, on a list or on a map.
fn take_each<H: HeldSteps<TypeId>>(
    statement: u64,
    variables: &[u64],
    types: &[TypeId],
    held: &mut H,
) -> Result<(), LinearFault>
    ensures { AnswersExactly (flow.taken statement variables.now types.now (H.held held.old)) result (H.held held.new) }
{
    let (mut variables, mut types) = (variables, types);
    while let [variable, later @ ..] = variables {
        let [wanted, others @ ..] = types else {
            return Ok(());
        };
        let variable = *variable;
        match held.take(variable) {
            Some(found) if found == *wanted => {}
            Some(_) => return Err(LinearFault::VarType {
                statement,
                variable,
            }),
            None => return Err(LinearFault::VarMissing {
                statement,
                variable,
            }),
        }
        (variables, types) = (later, others);
    }
    Ok(())
}

/// Passes where nothing is held.
pub(crate) fn nothing_left(statement: u64, held: &Held<TypeId>) -> Result<(), LinearFault>
    ensures { result ≡ flow.nothing_left statement held.now }
{
    match held.items().first() {
        Some(left) => Err(LinearFault::VarLeft {
            statement,
            variable: left.0,
        }),
        None => Ok(()),
    }
}

/// Adds variables of these types, one after another.
pub(crate) fn add_all(
    alloc: Global,
    statement: u64,
    variables: &[u64],
    types: &[TypeId],
    held: &mut Held<TypeId>,
) -> Result<(), LinearFault>
    ensures { Answers (flow.added statement variables.now types.now held.old) result held.new }
{
    if variables.len() < MANY {
        return add_each(statement, variables, types, held);
    }
    let mut map = HeldMap::of(alloc, mem::replace(held, Held::new(alloc)))?;
    add_each(statement, variables, types, &mut map)?;
    *held = map.into_held(alloc)?;
    Ok(())
}

/// The same, on a list or on a map.
fn add_each<H: HeldSteps<TypeId>>(
    statement: u64,
    variables: &[u64],
    types: &[TypeId],
    held: &mut H,
) -> Result<(), LinearFault>
    ensures { Answers (flow.added statement variables.now types.now (H.held held.old)) result (H.held held.new) }
{
    let (mut variables, mut types) = (variables, types);
    while let [variable, later @ ..] = variables {
        let [given, others @ ..] = types else {
            return Ok(());
        };
        let variable = *variable;
        match held.add(variable, *given) {
            Ok(()) => {}
            Err(AddFault::Taken) => return Err(LinearFault::VarTaken {
                statement,
                variable,
            }),
            Err(AddFault::Memory) => return Err(LinearFault::Memory),
        }
        (variables, types) = (later, others);
    }
    Ok(())
}

/// What is held where a function with these parameters, of these types, begins.
pub(crate) fn parameters(
    alloc: Global,
    params: &[(u64, Name)],
    types: &[TypeId],
) -> Result<Held<TypeId>, AllocError>
    ensures { IfOk result (λ held. held ≡ statements.held_with [] (map (λ x. x.0) params.now) types.now) }
{
    let mut held = Held::new(alloc);
    if params.len() < MANY {
        hold_each(params, types, &mut held)?;
        return Ok(held);
    }
    let mut map = HeldMap::of(alloc, held)?;
    hold_each(params, types, &mut map)?;
    map.into_held(alloc)
}

/// Adds parameters, on a list or on a map. Of two of one variable the first counts.
fn hold_each<H: HeldSteps<TypeId>>(
    params: &[(u64, Name)],
    types: &[TypeId],
    held: &mut H,
) -> Result<(), AllocError>
    ensures { OnOk result (H.held held.new ≡ statements.held_with (H.held held.old) (map (λ x. x.0) params.now) types.now) }
{
    let (mut params, mut types) = (params, types);
    while let [param, later @ ..] = params {
        let [given, others @ ..] = types else {
            return Ok(());
        };
        match held.add(param.0, *given) {
            Ok(()) | Err(AddFault::Taken) => {}
            Err(AddFault::Memory) => return Err(AllocError),
        }
        (params, types) = (later, others);
    }
    Ok(())
}

/// Where a branch of a statement leads.
pub(crate) fn target_of(statement: usize, target: Target) -> u64
    requires { statement + 1 < 2 ^ 64 }
    ensures { result ≡ statements.target_of statement target }
{
    match target {
        Target::Fallthrough => statement as u64 + 1,
        Target::To(number) => number,
    }
}

fn has_number(target: Target) -> bool
    ensures { result ≡ flow.has_number target }
{
    matches!(target, Target::To(_))
}

fn all_have_numbers(branches: &[Branch]) -> bool
    ensures { result ≡ list_all (λ b. flow.has_number b.target) branches.now }
{
    branches.iter().all(|branch| has_number(branch.target))
}

/// Whether branch 0 of several falls through and the others don't, and a single one has a number if and only if it is a
/// jump's.
fn falls_through(jumps: bool, branches: &[Branch]) -> bool
    ensures { result ≡ flow.falls_through jumps branches.now }
{
    match branches {
        [] => true,
        [only] => has_number(only.target) == jumps,
        [first, others @ ..] => !has_number(first.target) && all_have_numbers(others),
    }
}

/// Whether each branch has as many results as its types say.
fn counts_agree(branches: &[Branch], types: &[List<TypeId>]) -> bool
    ensures { result ≡ flow.counts_agree branches.now types.now }
{
    let (mut branches, mut types) = (branches, types);
    while let [branch, later @ ..] = branches {
        let [given, others @ ..] = types else {
            return false;
        };
        if branch.results.items().len() != given.items().len() {
            return false;
        }
        (branches, types) = (later, others);
    }
    types.is_empty()
}

/// Whether all branches lead to statements.
fn lead_inside(size: usize, statement: usize, branches: &[Branch]) -> bool
    requires { statement < size }
    ensures { result ≡ list_all (λ b. nat_lt (statements.target_of statement b.target) size) branches.now }
{
    branches
        .iter()
        .all(|branch| target_of(statement, branch.target) < size as u64)
}

/// Whether a statement has the shape of its libfunc's signature and leads to statements.
pub(crate) fn shaped(
    size: usize,
    statement: usize,
    sig: &Sig,
    args: &[u64],
    branches: &[Branch],
) -> bool
    requires { statement < size }
    ensures { result ≡ flow.shaped size statement sig.now args.now branches.now }
{
    args.len() == sig.params.items().len()
        && counts_agree(branches, sig.branches.items())
        && falls_through(matches!(sig.libfunc, Libfunc::Jump), branches)
        && lead_inside(size, statement, branches)
}

/// Adds an item at the end.
pub(crate) fn keep<T: Drop>(list: &mut Vec<T>, item: T) -> Result<(), AllocError>
    ensures { OnOk result (list.new.items ≡ list.old.items ++ item ∷ []) }
{
    Ok(list.push(item)?)
}
