//! Signatures of declared libfuncs, and why a declaration has none.

use crate::libfunc::Libfunc;
use sierra_types::{List, Name};
use std::alloc::AllocError;
use thiserror::Error;
use type_table::TypeId;

/// What a declared libfunc is, takes and gives.
#[derive(Debug, Drop)]
pub struct Sig {
    /// The libfunc with its resolved arguments.
    pub libfunc: Libfunc,
    /// The types of its arguments, in order.
    pub params: List<TypeId>,
    /// The types of the results of each branch, branch 0 first.
    pub branches: List<List<TypeId>>,
}

/// Why a declaration of a libfunc is refused, with the generic name or the declaration's id.
#[derive(Debug, Drop, Error)]
pub enum SigFault {
    /// P11: no family has this generic name.
    #[error("unknown libfunc")]
    UnknownLibfunc(Name),
    /// P12: the arguments of the declaration with this id aren't the family's; or a type of the signature, or the function
    /// that is called, isn't declared.
    #[error("bad arguments of a libfunc")]
    BadArgs(Name),
    /// P14: a type among the arguments of the declaration with this id lacks an ability that the family asks.
    #[error("missing ability")]
    AbilityMissing(Name),
    /// Memory ran out.
    #[error("out of memory")]
    Memory,
}

impl From<AllocError> for SigFault {
    ghost use Rattle.std.specs.Prelude.{◌≡◌};
    ghost use Rattle.libfunc_registry.specs.declared.sig.SigFault.TheVariants.{Memory};

    ghost from_gives = { λ _ fault. fault ≡ Memory };

    fn from(_: AllocError) -> SigFault {
        SigFault::Memory
    }
}
