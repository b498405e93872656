//! What was read of a run file so far, and where in it the next number stands.
//! Numbers come in one by one, as their eight bytes; the refusal goes out that the first faulty one brings, and at the end
//! the run. The reader of run files hands the numbers on.

ghost use Rattle.std.specs.Prelude.{◌≡◌, ◌≢◌, ◌⊎◌, ◌+◌, ◌<◌, ◌^◌, ◌++◌, ℕ, List, length, OnOk, IfOk, IfErr, IsTrue};
ghost use Rattle.run_file.specs.declared.run.Run.{Run};
ghost use Rattle.run_file.specs.Reading.{run_of};
ghost use Rattle.run_file.specs.Stages.{IsFinal, Allows, in_states, takes_memory};
ghost use Rattle.run_file.specs.Progress.{IsProgress, Keeps, room_for, so_far, rest_of, IsStart};

use crate::refusal::FileRefusal;
use crate::run::{Run, States};
use crate::stage::{MAGIC, Part, Stage};
use felt64::Felt;
use ro_machine::{Memory, State};
use std::alloc::Global;

/// The parts of a run that are whole.
#[derive(Debug, Drop)]
pub struct RunSoFar {
    rc: Felt,
    memory: Memory,
    states: Vec<State>,
}

/// The parts of the run that are whole, and the number that comes next, with its offset.
#[derive(Debug, Drop)]
pub struct Progress {
    at: u64,
    stage: Stage,
    run: RunSoFar,
}

impl Progress {
    /// Nothing read. It takes no memory; what is read later takes its room from `alloc`.
    pub fn new(alloc: Global) -> Progress
        ensures start { IsStart result }
        ensures fits { IsProgress result }
    {
        Progress {
            at: 0,
            stage: Stage::Magic,
            run: RunSoFar {
                rc: Felt::from(0),
                memory: Memory::new(alloc),
                states: Vec::new(alloc),
            },
        }
    }

    /// Takes the next number. In the states it takes no memory.
    pub fn take(&mut self, number: [u8; 8]) -> Result<(), FileRefusal>
        requires eight { length number ≡ 8 }
        requires fits { IsProgress self.old }
        requires offset { self.old.at + 8 < 2 ^ 64 }
        ensures fits { OnOk result (IsProgress self.new) }
        ensures at { OnOk result (self.new.at ≡ self.old.at + 8) }
        ensures rest { OnOk result ((more : List ℕ) → rest_of self.old (number ++ more) ≡ rest_of self.new more) }
        ensures room { OnOk result (IsTrue (in_states self.old.stage) → IsTrue (in_states self.new.stage)) }
        ensures refusal { IfErr result (λ e. e ≢ FileRefusal.Memory → IsFinal e × ((more : List ℕ) → rest_of self.old (number ++ more) ≡ Err e)) }
        ensures memory { IsTrue (in_states self.old.stage) → result ≢ Err FileRefusal.Memory }
    {
        let part = self.stage.advance(self.at, number)?;
        self.at += 8;
        self.run.keep(part)
    }

    /// Passes where the file is whole if it ends behind these bytes, too few for a number. It takes no memory.
    pub fn ends(&self, unfinished: &[u8]) -> Result<(), FileRefusal>
        requires short { length unfinished.now < 8 }
        requires offset { self.now.at + length unfinished.now < 2 ^ 64 }
        ensures whole { OnOk result (rest_of self.now unfinished.now ≡ Ok (so_far self.now.run)) }
        ensures refusal { IfErr result (λ e. (e ≢ FileRefusal.Memory) × (rest_of self.now unfinished.now ≡ Err e)) }
        ensures stays { IfErr result (λ e. IsFinal e → (more : List ℕ) → rest_of self.now (unfinished.now ++ more) ≡ Err e) }
    {
        let cut = FileRefusal::Cut(self.at + unfinished.len() as u64);
        match self.stage {
            Stage::Magic => {
                if MAGIC.starts_with(unfinished) {
                    Err(cut)
                } else {
                    Err(FileRefusal::Magic)
                }
            }
            Stage::End => {
                if unfinished.is_empty() {
                    Ok(())
                } else {
                    Err(FileRefusal::Extra(self.at))
                }
            }
            _ => Err(cut),
        }
    }

    /// The run that was read.
    pub fn into_run(self) -> Run
        ensures { result ≡ run_of (so_far self.run) }
    {
        Run {
            rc: self.run.rc,
            memory: self.run.memory,
            states: States::new(self.run.states),
        }
    }
}

impl RunSoFar {
    /// Adds a part. The room for all states is taken with their number, so that a count that memory can't hold is
    /// refused before any state is read.
    fn keep(&mut self, part: Part) -> Result<(), FileRefusal>
        requires { Allows self.old.memory (room_for self.old) part }
        ensures ok { OnOk result (Keeps self.old part self.new) }
        ensures err { IfErr result (λ e. e ≡ FileRefusal.Memory) }
        ensures memory { IsTrue (takes_memory part) ⊎ (result ≡ Ok tt) }
    {
        match part {
            Part::Nothing => Ok(()),
            Part::Rc(rc) => {
                self.rc = rc;
                Ok(())
            }
            Part::Cell { address, word } => Ok(self.memory.insert_new(address, word)?),
            Part::Steps(steps) => Ok(self.states.reserve_exact(steps as usize + 1)?),
            Part::State(state) => Ok(self.states.push(state)?),
        }
    }
}
