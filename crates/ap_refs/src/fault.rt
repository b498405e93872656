//! Why a typed program has no places.

use std::alloc::AllocError;
use thiserror::Error;

/// The first fault of the walk over the statements. Statements and variables go by their numbers.
#[derive(Clone, Copy, Debug, PartialEq, Eq, Drop, Error)]
pub enum RefFault {
    /// P24: two predecessors give different places.
    #[error("merged places differ")]
    MergeDiffers {
        /// The later predecessor.
        statement: u64,
        /// The least variable whose cells differ, and none where the change of ap or the local state alone does.
        variable: Option<u64>,
    },
    /// P30: the cells of a call's arguments or of a function's results are not on top of the stack, in order.
    #[error("an argument is not on the stack")]
    NotOnStack {
        /// The statement.
        statement: u64,
        /// The first argument with a cell that isn't in its place.
        variable: u64,
    },
    /// P31: an argument isn't of the form that its libfunc asks.
    #[error("an argument has another form")]
    NotPlain {
        /// The statement.
        statement: u64,
        /// The first such argument.
        variable: u64,
    },
    /// P32: a call or a squash leaves a held variable with a cell that is named by ap.
    #[error("a variable is named by ap")]
    Dangling {
        /// The statement.
        statement: u64,
        /// The least such variable.
        variable: u64,
    },
    /// P33: an argument has a cell whose offset is below `-2^14` or above `2^14 - 1`.
    #[error("an offset is too far")]
    OffsetTooFar {
        /// The statement.
        statement: u64,
        /// The first such argument.
        variable: u64,
    },
    /// P34: a local is placed, reserved or stored where it can't be, or a function ends before its locals are reserved.
    #[error("a local is out of order")]
    LocalRule {
        /// The statement.
        statement: u64,
    },
    /// Memory ran out.
    #[error("out of memory")]
    Memory,
}

impl From<AllocError> for RefFault {
    ghost use Rattle.std.specs.Prelude.{◌≡◌};
    ghost use Rattle.ap_refs.specs.declared.fault.RefFault.TheVariants.{Memory};

    ghost from_gives = { λ _ fault. fault ≡ Memory };

    fn from(_: AllocError) -> RefFault {
        RefFault::Memory
    }
}
