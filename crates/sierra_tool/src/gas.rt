//! The work of `gas`: the name of a file comes in, and its refusal goes out, or that of its program, or the gas plan.

ghost use Rattle.std.specs.Prelude.{Some};
ghost use Rattle.sierra_tool.specs.Stages.{Works};
ghost use Rattle.sierra_tool.specs.declared.command.Command.TheVariants as commands;

use crate::answer::{Answer, Stop};
use crate::command::Gas;
use crate::work::{pass_checks, read_tree};
use edge_io::Files;
use std::alloc::Global;

impl Gas<'_> {
    /// Reads the text, and takes the plan that the checks of its program found.
    pub(crate) fn answer<F: Files>(&self, alloc: Global, files: &mut F) -> Result<Answer, Stop>
        ensures { Works (F.view files.old) (F.view files.new) (Some (commands.Gas self.now)) result }
    {
        let tree = read_tree(alloc, files, self.program)?;
        let checked = pass_checks(alloc, &tree)?;
        Ok(Answer::Plan(checked.plan))
    }
}
