//! What a command answers, each answer with its status, and how its work stops. The commands make answers, the output
//! writes them, and the top call ends with their status.

ghost use Rattle.std.specs.Prelude.{◌≡◌};
ghost use Rattle.sierra_tool.specs.Command.{status_of};
ghost use Rattle.sierra_tool.specs.declared.answer.Stop.TheVariants.{OutOfMemory};

use crate::command::Source;
use casm_text::AsmFault;
use casm_word::Code;
use first_form::{CheckFault, Verdict};
use gas_solver::GasPlan;
use program_checks::Refusal;
use run_file::FileRefusal;
use sierra_text::TextFault;
use std::alloc::AllocError;
use std::marker::Model;
use typed_values::InputFault;

/// The answer to a call that didn't run out of memory.
#[derive(Debug, Drop)]
pub enum Answer {
    /// The run is accepted, and this is what it shows.
    Judged(Verdict),
    /// The bytes of the honest run's file.
    Ran(Bytes),
    /// The text of what the program means on the input.
    Evaluated(Bytes),
    /// The program's gas plan.
    Plan(GasPlan),
    /// The program's text in the plain layout.
    Printed(Bytes),
    /// The code of a CASM text.
    Assembled(Code),
    /// The arguments are no command.
    Usage,
    /// There is no such file.
    Missing(Source),
    /// The file could not be read.
    ReadFault(Source),
    /// The file has more bytes than it may have.
    TooLong(Source),
    /// The command isn't built, or the program of a run isn't of the form that is built.
    NotBuilt,
    /// The bytes are no Sierra text, by this fault.
    TextRefused(TextFault),
    /// The bytes are no CASM text, by this fault.
    CasmRefused(AsmFault),
    /// The program is refused, for this first reason.
    ProgramRefused(Refusal),
    /// The text is that of no input of main, by this fault.
    InputRefused(InputFault),
    /// The input's gas is less than a run of the program needs.
    NotEnoughGas {
        /// The gas that a run needs.
        need: u64,
        /// The input's gas.
        given: u64,
    },
    /// The bytes are no run file, by this refusal.
    RunRefused(FileRefusal),
    /// The run is not accepted, for this first part that fails.
    RunRejected(CheckFault),
}

impl Answer {
    /// The exit status.
    pub fn status(&self) -> u8
        ensures { result ≡ status_of self.now }
    {
        match self {
            Answer::Judged(_)
            | Answer::Ran(_)
            | Answer::Evaluated(_)
            | Answer::Plan(_)
            | Answer::Printed(_)
            | Answer::Assembled(_) => 0,
            Answer::Usage => 2,
            Answer::Missing(_) => 3,
            Answer::ReadFault(_) => 4,
            Answer::TooLong(_) => 7,
            Answer::NotBuilt => 9,
            Answer::TextRefused(_) | Answer::CasmRefused(_) => 10,
            Answer::ProgramRefused(_) => 11,
            Answer::InputRefused(_) => 12,
            Answer::NotEnoughGas { .. } => 13,
            Answer::RunRefused(_) => 14,
            Answer::RunRejected(_) => 15,
        }
    }
}

/// Bytes that a command made, as they are written.
#[derive(Debug, Drop)]
pub struct Bytes {
    bytes: Vec<u8>,
}

impl Model for Bytes {
    ghost use Rattle.std.specs.Prelude.{List, ℕ};

    ghost Value = { List ℕ };

    ghost view = { λ made. made.bytes.items };
}

impl Bytes {
    /// These bytes.
    pub fn new(bytes: Vec<u8>) -> Bytes
        ensures { result ≡ bytes.items }
    {
        Bytes { bytes }
    }

    /// The bytes. It takes no memory.
    pub fn as_slice(&self) -> &[u8]
        ensures { result.now ≡ self.now }
    {
        &self.bytes
    }
}

/// Why a command's work stops before its end.
#[derive(Debug, Drop)]
pub enum Stop {
    /// This refusal is the answer.
    Refused(Answer),
    /// There was no memory.
    OutOfMemory,
}

impl From<AllocError> for Stop {
    ghost from_gives = { λ _ stop. stop ≡ OutOfMemory };

    fn from(_: AllocError) -> Stop {
        Stop::OutOfMemory
    }
}
