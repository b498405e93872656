//! Inputs of programs: an accepted program and the name of a file come in, and its refusal goes out, or the input for main; and of
//! programs whose main takes one number of the field, whether it does, and that number.

ghost use Rattle.std.specs.Prelude.{◌≡◌, ◌<◌, ◌↔◌, length, IfOk, IsTrue};
ghost use Rattle.std.specs.List.{All};
ghost use Rattle.type_table.specs.View.{trees_of};
ghost use Rattle.gas_solver.specs.Accepting.{IsAccepted};
ghost use Rattle.libfunc_registry.specs.Fam.{params_of};
ghost use Rattle.typed_values.specs.Shown.{input_meant};
ghost use Rattle.sierra_tool.specs.Causes.{Holds, IsInputOf, TakesOneFelt, argument_types};
ghost use Rattle.sierra_tool.specs.Evaluating.{ReadsInput};
ghost use Rattle.sierra_tool.specs.OneNumber.{HasOneNumber, with_number, is_felt_kind, is_one_felt};
ghost use Rattle.sierra_tool.specs.Stages.{ReadsSource, IsRefused, NoInputOf};

use crate::answer::{Answer, Stop};
use crate::command::Source;
use crate::laws::known;
use crate::work::bytes;
use edge_io::Files;
use felt64::Felt;
use gas_solver::Accepted;
use std::alloc::{AllocError, Global};
use type_table::{TypeId, TypeKind, Types};
use type_trees::Num;
use typed_values::{Input, InputFault, read_input, without_builtins};

/// The input of a file, for this program.
pub fn read_given<F: Files>(
    alloc: Global,
    files: &mut F,
    accepted: &Accepted,
    name: &str,
) -> Result<Input, Stop>
    ensures { ReadsSource (F.view files.old) (F.view files.new) name.now
        (λ given input. Holds Source.Input given (λ text. IsInputOf accepted.now text (input_meant input)))
        (IsRefused Source.Input (NoInputOf accepted.now)) result }
{
    let text = bytes(alloc, files, Source::Input, name)?;
    input_of(alloc, accepted, &text)
}

/// The input of a text, for this program.
fn input_of(alloc: Global, accepted: &Accepted, text: &[u8]) -> Result<Input, Stop>
    ensures { ReadsInput accepted.now text.now result }
{
    known();
    let args = argument_types(alloc, accepted)?;
    match read_input(alloc, text, accepted.types(), &args) {
        Ok(input) => Ok(input),
        Err(InputFault::Memory) => Err(Stop::OutOfMemory),
        Err(fault) => Err(Stop::Refused(Answer::InputRefused(fault))),
    }
}

/// The input of one number.
pub fn one_number(input: &Input) -> first_form::Input
    requires { HasOneNumber (input_meant input.now) }
    ensures { input_meant input.now ≡ with_number result }
{
    let number = match input.args.first() {
        Some(value) => value.as_number().unwrap_or(0),
        None => 0,
    };
    first_form::Input {
        gas: input.gas as u32,
        argument: Felt::reduce(u128::from(number)),
    }
}

/// Whether main takes one number of the field besides its builtins.
pub fn takes_one_felt(alloc: Global, accepted: &Accepted) -> Result<bool, AllocError>
    ensures { IfOk result (λ takes. IsTrue takes ↔ TakesOneFelt accepted.now) }
{
    let args = argument_types(alloc, accepted)?;
    Ok(is_one_felt(accepted.types(), &args))
}

/// Whether these types are one, that of the numbers of the field.
#[tactic(auto, using(crate::proofs::OneNumber::one_of_others))]
fn is_one_felt(types: &Types, args: &[TypeId]) -> bool
    requires { All (λ t. t.0 < length types.now.rows) args.now }
    ensures { result ≡ is_one_felt (trees_of types.now args.now) }
{
    match args {
        [id] => is_felt_kind(types.kind(*id)),
        _ => false,
    }
}

/// Whether this kind is that of the numbers of the field.
fn is_felt_kind(kind: TypeKind) -> bool
    ensures { result ≡ is_felt_kind kind }
{
    match kind {
        TypeKind::Number(Num::Felt64) => true,
        _ => false,
    }
}

/// The types of main's parameters that are no builtins. The program is accepted.
fn argument_types(alloc: Global, accepted: &Accepted) -> Result<Vec<TypeId>, AllocError>
    ensures accepted { IsAccepted accepted.now }
    ensures trees { IfOk result (λ args. trees_of accepted.now.types args.items ≡ argument_types accepted.now) }
    ensures below { IfOk result (λ args. All (λ t. t.0 < length accepted.now.types.rows) args.items) }
{
    without_builtins(alloc, accepted.types(), parameters(accepted))
}

/// The types of main's parameters. The program is accepted.
fn parameters(accepted: &Accepted) -> &[TypeId]
    ensures accepted { IsAccepted accepted.now }
    ensures trees { trees_of accepted.now.types result.now ≡ params_of accepted.now.types accepted.now.main }
    ensures below { All (λ t. t.0 < length accepted.now.types.rows) result.now }
{
    let _program = accepted.program();
    accepted.types().params(accepted.main())
}
