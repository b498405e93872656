//! The work of `run`, in its order: what a run starts from, and the honest run. The names of two files come in, and the
//! first refusal that is met goes out, or the bytes of a run file.

ghost use Rattle.std.specs.Prelude.{Some};
ghost use Rattle.sierra_tool.specs.Stages.{Works};
ghost use Rattle.sierra_tool.specs.declared.command.Command.TheVariants as commands;

use crate::answer::{Answer, Bytes, Stop};
use crate::command::{Command, Execute};
use crate::work::read_start;
use edge_io::Files;
use first_form::honest_file;
use std::alloc::Global;

impl Execute<'_> {
    /// Reads the two files, each where what came before it isn't refused, and runs the program.
    pub(crate) fn answer<F: Files>(&self, alloc: Global, files: &mut F) -> Result<Answer, Stop>
        ensures { Works (F.view files.old) (F.view files.new) (Some (commands.Run self.now)) result }
    {
        let command = Command::Run(*self);
        let start = read_start(alloc, files, &command)?;
        let file = honest_file(alloc, &start.program, &start.input)?;
        Ok(Answer::Ran(Bytes::new(file)))
    }
}
