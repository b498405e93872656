//! Why a program has no gas plan.

use sierra_types::List;
use std::alloc::AllocError;
use thiserror::Error;

/// Why a program has no gas plan. Statements go by their numbers.
#[derive(Debug, Drop, Error)]
pub enum GasFault {
    /// P40: some statement leads back to itself without a success branch of `withdraw_gas`. The list begins at the least
    /// such statement, and goes on along a shortest way back to it, each time by the least statement.
    #[error("a cycle of statements that withdraws no gas")]
    Cycle(List<u64>),
    /// P41: this statement is the first that needs `2^32` or more. Or it is main's entry, and no statement needs so much, but
    /// a run with the call of main does.
    #[error("statement {0} needs 2^32 gas or more")]
    TooLarge(u64),
    /// Memory ran out.
    #[error("out of memory")]
    Memory,
}

impl From<AllocError> for GasFault {
    ghost use Rattle.std.specs.Prelude.{◌≡◌};
    ghost use Rattle.gas_solver.specs.declared.fault.GasFault.TheVariants.{Memory};

    ghost from_gives = { λ _ fault. fault ≡ Memory };

    fn from(_: AllocError) -> GasFault {
        GasFault::Memory
    }
}
