//! Why a program is refused.

use ap_refs::RefFault;
use entry_check::EntryFault;
use gas_solver::GasFault;
use libfunc_registry::SigFault;
use linear_check::LinearFault;
use thiserror::Error;
use type_table::TypeFault;

/// The first refusal of a program, by the check that it doesn't pass. What a check finds when there is no memory is
/// `Memory` here, and in no other variant.
#[derive(Debug, Drop, Error)]
pub enum Refusal {
    /// A type, the id of a libfunc, or a function is refused.
    #[error("{0}")]
    Types(TypeFault),
    /// A libfunc has no signature.
    #[error("{0}")]
    Libfuncs(SigFault),
    /// A statement is refused by the linear check.
    #[error("{0}")]
    Statements(LinearFault),
    /// No function is main, or main has a type that a run can't be given or show.
    #[error("{0}")]
    Entry(EntryFault),
    /// A statement has no places.
    #[error("{0}")]
    Places(RefFault),
    /// A run needs gas without bound, or more than there may be.
    #[error("{0}")]
    Gas(GasFault),
    /// There was no memory.
    #[error("out of memory")]
    Memory,
}
