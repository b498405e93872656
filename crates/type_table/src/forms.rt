//! The form of a declaration's arguments, and what kind of type it is.

ghost use Rattle.std.specs.Prelude.{◌≡◌, length, option_copied};
ghost use Rattle.type_table.specs.Forms.{IsForm, all_ordinary, generic_at, given_of, is_initialized, is_ordinary, kind_given};
ghost use Rattle.type_table.specs.Refusals.{named_types};
ghost use Rattle.type_table.specs.Resolving.{user_in};

use crate::generic::Generic;
use crate::kind::TypeKind;
use sierra_types::{Arg, Name};

/// What stands before the types that arguments name.
#[derive(Clone, Copy, Debug, Drop)]
pub(crate) enum Form<'a> {
    /// Nothing: all arguments are types.
    Types,
    /// A user's type: all arguments behind it are types.
    User(&'a Name),
    /// Arguments that no type takes.
    Other,
}

/// What arguments give, as far as generic names tell.
#[derive(Clone, Copy, Debug, Drop)]
pub(crate) enum Given {
    /// No argument.
    Nothing,
    /// One type, of this generic type if its name is one.
    One(Option<Generic>),
    /// A user's type, and behind it so many types other than builtins and uninitialized ones.
    Members(usize),
    /// Arguments that no type takes.
    Other,
}

/// The user's type that arguments begin with.
pub(crate) fn user_in(args: &[Arg]) -> Option<&Name>
    ensures { option_copied result ≡ user_in args.now }
{
    match args.first() {
        Some(Arg::User(name)) => Some(name),
        _ => None,
    }
}

/// The form of arguments of which so many are types.
pub(crate) fn form_of<'a>(args: &'a [Arg], types: usize) -> Form<'a>
    requires { types ≡ length (named_types args.now) }
    ensures { IsForm result args.now }
{
    if args.len() == types {
        return Form::Types;
    }
    match user_in(args) {
        Some(name) => if args.len().saturating_sub(1) == types {
            Form::User(name)
        } else {
            Form::Other
        },
        None => Form::Other,
    }
}

/// Whether a type of this generic type may be an argument of a box, an array, a snapshot, a struct or an enum.
fn is_ordinary(generic: Option<Generic>) -> bool
    ensures { result ≡ is_ordinary generic }
{
    !matches!(
        generic,
        Some(Generic::RangeCheck | Generic::GasBuiltin | Generic::Uninitialized)
    )
}

/// Whether it isn't `Uninitialized`.
fn is_initialized(generic: Option<Generic>) -> bool
    ensures { result ≡ is_initialized generic }
{
    !matches!(generic, Some(Generic::Uninitialized))
}

/// The generic type of the declaration at a position.
pub(crate) fn generic_at(generics: &[Option<Generic>], position: usize) -> Option<Generic>
    ensures { result ≡ generic_at generics.now position }
{
    generics.get(position).copied().flatten()
}

/// Whether the types at these positions may all be members.
fn all_ordinary(generics: &[Option<Generic>], targets: &[usize]) -> bool
    ensures { result ≡ all_ordinary generics.now targets.now }
{
    targets
        .iter()
        .all(|t| is_ordinary(generic_at(generics, *t)))
}

/// What arguments of this form give, which name the types at these positions.
pub(crate) fn given_of(form: Form, generics: &[Option<Generic>], targets: &[usize]) -> Given
    ensures { result ≡ given_of form.entry generics.now targets.now }
{
    match form {
        Form::Types => match targets {
            [] => Given::Nothing,
            [t] => Given::One(generic_at(generics, *t)),
            _ => Given::Other,
        },
        Form::User(_) if all_ordinary(generics, targets) => Given::Members(targets.len()),
        Form::User(_) | Form::Other => Given::Other,
    }
}

/// The kind of type that this generic type makes of what is given, if it takes that.
pub(crate) fn kind_given(generic: Generic, given: Given) -> Option<TypeKind>
    ensures { result ≡ kind_given generic given }
{
    match (generic, given) {
        (Generic::Number(num), Given::Nothing) => Some(TypeKind::Number(num)),
        (Generic::RangeCheck, Given::Nothing) => Some(TypeKind::RangeCheck),
        (Generic::GasBuiltin, Given::Nothing) => Some(TypeKind::GasBuiltin),
        (Generic::NonZero, Given::One(Some(Generic::Number(num)))) => Some(TypeKind::NonZero(num)),
        (Generic::Box, Given::One(part)) if is_ordinary(part) => Some(TypeKind::Box),
        (Generic::Array, Given::One(part)) if is_ordinary(part) => Some(TypeKind::Array),
        (Generic::Snapshot, Given::One(part)) if is_ordinary(part) => Some(TypeKind::Snapshot),
        (Generic::Struct, Given::Members(_)) => Some(TypeKind::Struct),
        (Generic::Enum, Given::Members(1..)) => Some(TypeKind::Enum),
        (Generic::Dict, Given::One(Some(Generic::Number(num)))) => Some(TypeKind::Dict(num)),
        (Generic::DictEntry, Given::One(Some(Generic::Number(num)))) => Some(TypeKind::DictEntry(
            num,
        )),
        (Generic::SquashedDict, Given::One(Some(Generic::Number(num)))) => Some(
            TypeKind::SquashedDict(num),
        ),
        (Generic::Uninitialized, Given::One(part)) if is_initialized(part) => Some(
            TypeKind::Uninitialized,
        ),
        _ => None,
    }
}
