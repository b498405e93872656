//! Why a program isn't linearly typed.

ghost use Rattle.std.specs.Prelude.{◌≡◌, ◌↔◌, IsTrue};

use std::alloc::AllocError;
use thiserror::Error;

/// The first fault of the walk over the statements. Statements and variables go by their numbers.
#[derive(Clone, Copy, Debug, PartialEq, Eq, Drop, Error)]
pub enum LinearFault {
    /// P20: an argument isn't held; a second use in one statement among them.
    #[error("a variable is missing")]
    VarMissing {
        /// The statement.
        statement: u64,
        /// The argument.
        variable: u64,
    },
    /// P21: the type of an argument differs from the signature's, or that of an answer from the function's.
    #[error("a variable has another type")]
    VarType {
        /// The statement.
        statement: u64,
        /// The argument.
        variable: u64,
    },
    /// P22: a `return` leaves a variable.
    #[error("a variable is left")]
    VarLeft {
        /// The statement.
        statement: u64,
        /// The least variable that is left.
        variable: u64,
    },
    /// P23: a result is held already, after the arguments were taken.
    #[error("a variable is taken")]
    VarTaken {
        /// The statement.
        statement: u64,
        /// The result.
        variable: u64,
    },
    /// P24: two predecessors give different variables or types.
    #[error("merged variables differ")]
    MergeDiffers {
        /// The later predecessor.
        statement: u64,
        /// The least variable that differs.
        variable: u64,
    },
    /// P25: a target of a statement with several branches is no `branch_align`, or has another predecessor.
    #[error("a branch_align is missing")]
    AlignMissing {
        /// The statement with the branches.
        statement: u64,
    },
    /// P26: a statement of an earlier function is led to, or a function begins there.
    #[error("a statement is shared")]
    SharedStatement {
        /// The statement that leads there, or where the function begins.
        statement: u64,
    },
    /// P27: no function reaches a statement.
    #[error("a statement is unreachable")]
    Unreachable {
        /// The least such statement.
        statement: u64,
    },
    /// P28: a statement doesn't fit its libfunc's signature or its function's results, or leads or begins past the last one.
    #[error("a statement has a wrong shape")]
    Shape {
        /// The statement, or the entry that lies past the last one.
        statement: u64,
    },
    /// Memory ran out.
    #[error("out of memory")]
    Memory,
}

impl From<AllocError> for LinearFault {
    ghost use Rattle.std.specs.Prelude.{◌≡◌};
    ghost use Rattle.linear_check.specs.declared.fault.LinearFault.TheVariants.{Memory};

    ghost from_gives = { λ _ fault. fault ≡ Memory };

    fn from(_: AllocError) -> LinearFault {
        LinearFault::Memory
    }
}

impl LinearFault {
    /// Whether memory ran out.
    pub(crate) fn is_memory(self) -> bool
        ensures { IsTrue result ↔ (self ≡ LinearFault.Memory) }
    {
        matches!(self, LinearFault::Memory)
    }
}
