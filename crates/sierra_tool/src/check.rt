//! The work of `check`, in its order: what a run starts from, the run file, the run. The names of three files come in, and
//! the first refusal that is met goes out, or the verdict.

ghost use Rattle.std.specs.Prelude.{Some};
ghost use Rattle.sierra_tool.specs.Causes.{Holds, IsRunFile};
ghost use Rattle.sierra_tool.specs.Stages.{ReadsSource, IsRefused, NoRun, Works};
ghost use Rattle.sierra_tool.specs.declared.command.Command.TheVariants as commands;

use crate::answer::{Answer, Stop};
use crate::command::{Check, Command, Source};
use crate::work::{bytes, read_start};
use edge_io::Files;
use first_form::{Judgement, judge};
use run_file::{FileRefusal, Run};
use std::alloc::Global;

impl Check<'_> {
    /// Reads the three files, each where what came before it isn't refused, and judges the run.
    pub(crate) fn answer<F: Files>(&self, alloc: Global, files: &mut F) -> Result<Answer, Stop>
        ensures { Works (F.view files.old) (F.view files.new) (Some (commands.Check self.now)) result }
    {
        let command = Command::Check(*self);
        let start = read_start(alloc, files, &command)?;
        let run = run(alloc, files, self.run)?;
        match judge(alloc, &start.program, &start.input, &run)? {
            Judgement::Accepted(verdict) => Ok(Answer::Judged(verdict)),
            Judgement::Rejected(fault) => Ok(Answer::RunRejected(fault)),
        }
    }
}

/// The run of a file.
fn run<F: Files>(alloc: Global, files: &mut F, name: &str) -> Result<Run, Stop>
    ensures { ReadsSource (F.view files.old) (F.view files.new) name.now
        (λ given run. Holds Source.Run given (λ bytes. IsRunFile bytes run))
        (IsRefused Source.Run NoRun) result }
{
    let bytes = bytes(alloc, files, Source::Run, name)?;
    match run_file::read(alloc, &bytes) {
        Ok(run) => Ok(run),
        Err(FileRefusal::Memory) => Err(Stop::OutOfMemory),
        Err(refusal) => Err(Stop::Refused(Answer::RunRefused(refusal))),
    }
}
