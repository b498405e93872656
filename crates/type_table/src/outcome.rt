//! What is found of a declaration.

ghost use Rattle.std.specs.Prelude.{◌≡◌, option_copied};
ghost use Rattle.type_table.specs.Outcomes.{found_of, is_within, once, weighed};

use crate::abilities::{facts_given, info_fits, is_allowed};
use crate::facts::{Facts, TOO_DEEP, TOO_MANY_CELLS};
use crate::kind::TypeKind;
use crate::rules::TypeRule;
use sierra_types::TypeDecl;

/// A type that isn't refused.
#[derive(Clone, Copy, Debug, Drop)]
pub(crate) struct Known {
    /// What kind of type it is.
    pub kind: TypeKind,
    /// Its size, abilities and depth.
    pub facts: Facts,
}

/// What is found of a declaration.
#[derive(Clone, Copy, Debug, Drop)]
pub(crate) enum Outcome {
    /// Its type.
    Type(Known),
    /// Nothing, since it reaches a type that is refused.
    Hidden,
    /// The first rule that it breaks.
    Broken(TypeRule),
}

/// A declaration has at most so many arguments.
const MOST_ARGUMENTS: usize = 16777216;

/// Whether a declaration of so many arguments is within the limits.
fn is_within(arguments: usize, facts: Facts) -> bool
    ensures { result ≡ is_within arguments facts }
{
    facts.size < TOO_MANY_CELLS && (arguments <= MOST_ARGUMENTS && facts.depth < TOO_DEEP)
}

/// What is found of a declaration whose arguments make a type of this kind, of type arguments with these facts.
fn weighed(declaration: &TypeDecl, kind: TypeKind, parts: &[Facts]) -> Outcome
    ensures { result ≡ weighed declaration.now kind parts.now }
{
    let facts = facts_given(kind, parts);
    if !is_allowed(kind, parts) {
        Outcome::Broken(TypeRule::ArgumentsFit)
    } else if !info_fits(declaration.info, facts) {
        Outcome::Broken(TypeRule::InfoFits)
    } else if !is_within(declaration.args.items().len(), facts) {
        Outcome::Broken(TypeRule::WithinLimits)
    } else {
        Outcome::Type(Known { kind, facts })
    }
}

/// The same, where the declaration is perhaps a repeated one.
fn once(repeated: bool, outcome: Outcome) -> Outcome
    ensures { result ≡ once repeated outcome }
{
    match outcome {
        Outcome::Type(_) | Outcome::Hidden if repeated => Outcome::Broken(TypeRule::DeclaredOnce),
        _ => outcome,
    }
}

/// What is found of a declaration whose names are known and whose arguments fit a type of this kind: from the facts of its
/// type arguments if none of them is refused.
pub(crate) fn found_of(
    declaration: &TypeDecl,
    kind: TypeKind,
    parts: Option<&[Facts]>,
    repeated: bool,
) -> Outcome
    ensures { result ≡ found_of declaration.now kind (option_copied parts.entry) repeated }
{
    let outcome = match parts {
        Some(parts) => weighed(declaration, kind, parts),
        None => Outcome::Hidden,
    };
    once(repeated, outcome)
}
