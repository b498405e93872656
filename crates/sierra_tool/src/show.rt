//! The work of `show`: the name of a file comes in, and its refusal goes out, or the program's text in the plain layout.

ghost use Rattle.std.specs.Prelude.{Some};
ghost use Rattle.sierra_tool.specs.Stages.{Works};
ghost use Rattle.sierra_tool.specs.declared.command.Command.TheVariants as commands;

use crate::answer::{Answer, Bytes, Stop};
use crate::command::Show;
use crate::work::read_tree;
use edge_io::Files;
use sierra_text::print;
use std::alloc::Global;

impl Show<'_> {
    /// Reads the text and lays it out.
    pub(crate) fn answer<F: Files>(&self, alloc: Global, files: &mut F) -> Result<Answer, Stop>
        ensures { Works (F.view files.old) (F.view files.new) (Some (commands.Show self.now)) result }
    {
        let tree = read_tree(alloc, files, self.program)?;
        let text = print(alloc, &tree)?;
        Ok(Answer::Printed(Bytes::new(text.into_bytes())))
    }
}
