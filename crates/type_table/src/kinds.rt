//! What kind of type each declaration makes, as far as names and the form of arguments tell.

ghost use Rattle.std.specs.Prelude.{◌≡◌, ◌<◌, length, is_some, IfOk, Some, slice_get};
ghost use Rattle.type_table.specs.Kinds.{AreKindsTold, IsKindTold};
ghost use Rattle.type_table.specs.Refusals.{named_type, named_types};

use crate::forms::{form_of, generic_at, given_of, kind_given};
use crate::generic::Generic;
use crate::kind::TypeKind;
use crate::rules::TypeRule;
use graph_cycles::Graph;
use sierra_types::{Arg, TypeDecl};
use std::alloc::{AllocError, Global};

/// Whether an argument is a type.
fn is_type(arg: &Arg) -> bool
    ensures { result ≡ is_some (named_type arg.now) }
{
    matches!(arg, Arg::OfType(_))
}

/// How many of the arguments are types.
fn types_in(args: &[Arg]) -> usize
    ensures { result ≡ length (named_types args.now) }
{
    let mut types = 0;
    for arg in args {
        if is_type(arg) {
            types += 1;
        }
    }
    types
}

/// What kind of type a declaration makes, whose arguments name the types at these positions; or the rule that its names or
/// the form of its arguments break.
fn kind_told(
    generic: Option<Generic>,
    args: &[Arg],
    generics: &[Option<Generic>],
    targets: &[usize],
) -> Result<TypeKind, TypeRule>
    ensures { IsKindTold generic args.now generics.now targets.now result }
{
    let Some(generic) = generic else {
        return Err(TypeRule::NamesKnown);
    };
    if types_in(args) != targets.len() {
        return Err(TypeRule::NamesKnown);
    }
    let form = form_of(args, targets.len());
    match kind_given(generic, given_of(form, generics, targets)) {
        Some(kind) => Ok(kind),
        None => Err(TypeRule::ArgumentsFit),
    }
}

/// What is told of the declaration at a position.
pub(crate) fn kind_at(kinds: &[Result<TypeKind, TypeRule>], i: usize) -> Result<TypeKind, TypeRule>
    requires { i < length kinds.now }
    ensures { slice_get kinds.now i ≡ Some result }
{
    kinds[i]
}

/// What is told of the kinds of all declarations.
pub(crate) fn kinds_told(
    alloc: Global,
    declarations: &[TypeDecl],
    generics: &[Option<Generic>],
    graph: &Graph,
) -> Result<Vec<Result<TypeKind, TypeRule>>, AllocError>
    requires { length graph.now ≡ length declarations.now }
    ensures { IfOk result (λ kinds. AreKindsTold declarations.now generics.now graph.now kinds.items) }
{
    let mut kinds = Vec::with_capacity(alloc, declarations.len())?;
    for (i, declaration) in declarations.iter().enumerate() {
        let generic = generic_at(generics, i);
        let kind = kind_told(
            generic,
            declaration.args.items(),
            generics,
            graph.targets(i),
        );
        kinds.push(kind)?;
    }
    Ok(kinds)
}
