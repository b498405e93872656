//! What the table keeps of a type and of a function.

use crate::kind::TypeKind;
use crate::type_id::{TypeId, TypeInfo};
use sierra_types::{List, Name};

/// A declared type.
#[derive(Debug, Drop)]
pub(crate) struct Row {
    /// What kind of type it is.
    pub kind: TypeKind,
    /// The generic name.
    pub generic: Name,
    /// The name behind `ut@`, if the type has one.
    pub user: Option<Name>,
    /// The type arguments, in order.
    pub members: List<TypeId>,
    /// Size and abilities.
    pub info: TypeInfo,
    /// Whether main may take and give it.
    pub plain: bool,
}

/// The types that a declared function takes and gives.
#[derive(Debug, Drop)]
pub(crate) struct Signature {
    /// The types of the parameters, in order.
    pub params: List<TypeId>,
    /// The types of the results, in order.
    pub results: List<TypeId>,
}
