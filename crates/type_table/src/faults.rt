//! The fault of a declaration that breaks a rule.

ghost use Rattle.std.specs.Prelude.{◌≡◌, ◌≢◌, IfOk};
ghost use Rattle.type_table.specs.Made.{fault_told, fault_with, unknown_name};

use crate::fault::TypeFault;
use crate::generic::generic_named;
use crate::positions::Positions;
use crate::resolving::first_unknown;
use crate::rules::TypeRule;
use sierra_types::{Name, TypeDecl};
use std::alloc::{AllocError, Global};

/// The first name of a declaration that isn't known: the generic name, or a type among the arguments.
fn unknown_name<'a>(positions: &Positions, declaration: &'a TypeDecl) -> &'a Name
    ensures { result.now ≡ unknown_name positions.now declaration.now }
{
    if generic_named(declaration.generic.bytes()).is_none() {
        return &declaration.generic;
    }
    match first_unknown(positions, declaration.args.items()) {
        Some(id) => id,
        None => &declaration.generic,
    }
}

/// The fault of a declaration that breaks a rule, with the name that it tells.
fn fault_with(rule: TypeRule, name: Name) -> TypeFault
    ensures { result ≡ fault_with rule name }
{
    match rule {
        TypeRule::NamesKnown => TypeFault::UnknownType(name),
        TypeRule::ArgumentsFit => TypeFault::BadArgs(name),
        TypeRule::InfoFits => TypeFault::TypeInfoDiffers(name),
        TypeRule::NoCycle => TypeFault::TypeCycle(name),
        TypeRule::WithinLimits => TypeFault::SizeAbove(name),
        TypeRule::DeclaredOnce => TypeFault::Duplicate(name),
    }
}

/// The fault of a declaration that breaks a rule.
fn fault_told(
    alloc: Global,
    positions: &Positions,
    declaration: &TypeDecl,
    rule: TypeRule,
) -> Result<TypeFault, AllocError>
    ensures { IfOk result (λ fault. fault ≡ fault_told positions.now declaration.now rule) }
{
    let name = match rule {
        TypeRule::NamesKnown => unknown_name(positions, declaration),
        _ => &declaration.id,
    };
    let name = Name::new(alloc, name.bytes())?;
    Ok(fault_with(rule, name))
}

/// The fault of a declaration that breaks a rule, or out of memory.
pub(crate) fn fault_of(
    alloc: Global,
    positions: &Positions,
    declaration: &TypeDecl,
    rule: TypeRule,
) -> TypeFault
    ensures { result ≢ TypeFault.Memory → result ≡ fault_told positions.now declaration.now rule }
{
    match fault_told(alloc, positions, declaration, rule) {
        Ok(fault) => fault,
        Err(AllocError) => TypeFault::Memory,
    }
}
