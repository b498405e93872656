//! Values of variables: arguments are taken out, and results are added.

ghost use Rattle.std.specs.Prelude.{◌≡◌, [], List, map, Some, Ok, IfOk, OnOk, IsSome};
ghost use Rattle.std.specs.List.{zip};
ghost use Rattle.held_list.specs.Held.{Held as HeldOf};
ghost use Rattle.held_list.specs.Editing.{add, take_all, add_all};
ghost use Rattle.value_trees.specs.declared.value.Value.{Value as ValueOf};

use held_list::{AddFault, Held};
use sierra_types::Name;
use std::alloc::{AllocError, Global};
use value_trees::Value;

/// Takes the values of these variables out, one after another.
pub(crate) fn take_values(
    names: &[u64],
    env: &mut Held<Value>,
    values: &mut Vec<Value>,
) -> Result<(), AllocError>
    requires empty { values.old.items ≡ [] }
    requires held { (vs : List ValueOf) × (rest : HeldOf ValueOf) × (take_all names.now env.old ≡ Ok (vs, rest)) }
    ensures { OnOk result (take_all names.now env.old ≡ Ok (values.new.items, env.new)) }
{
    for name in names {
        values.push(env.take_held(*name))?;
    }
    Ok(())
}

/// Adds values under these names, one after another, and leaves none.
pub(crate) fn add_values(
    names: &[u64],
    values: &mut Vec<Value>,
    env: &mut Held<Value>,
) -> Result<(), AllocError>
    requires { (more : HeldOf ValueOf) × (add_all (zip names.now values.old.items) env.old ≡ Ok more) }
    ensures added { OnOk result (add_all (zip names.now values.old.items) env.old ≡ Ok env.new) }
    ensures emptied { OnOk result (values.new.items ≡ []) }
{
    values.reverse();
    for name in names {
        let Some(value) = values.pop() else {
            return Ok(());
        };
        add_new(*name, value, env)?;
    }
    values.clear();
    Ok(())
}

/// What a function with these parameters begins with. It leaves none of the values.
pub(crate) fn begin(
    alloc: Global,
    params: &[(u64, Name)],
    values: &mut Vec<Value>,
) -> Result<Held<Value>, AllocError>
    requires { (more : HeldOf ValueOf) × (add_all (zip (map (λ x. x.0) params.now) values.old.items) [] ≡ Ok more) }
    ensures added { IfOk result (λ held. add_all (zip (map (λ x. x.0) params.now) values.old.items) [] ≡ Ok held) }
    ensures emptied { OnOk result (values.new.items ≡ []) }
{
    let mut env = Held::new(alloc);
    values.reverse();
    for param in params {
        let Some(value) = values.pop() else {
            return Ok(env);
        };
        add_new(param.0, value, &mut env)?;
    }
    values.clear();
    Ok(env)
}

/// Adds a variable that isn't held.
fn add_new(name: u64, value: Value, env: &mut Held<Value>) -> Result<(), AllocError>
    requires { IsSome (add name value env.old) }
    ensures { OnOk result (add name value env.old ≡ Some env.new) }
{
    match env.add(name, value) {
        Ok(()) => Ok(()),
        Err(AddFault::Taken) => unreachable!(),
        Err(AddFault::Memory) => Err(AllocError),
    }
}
