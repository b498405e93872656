//! The work of `asm`: the name of a file comes in, and its refusal goes out, or the code of its text.

ghost use Rattle.std.specs.Prelude.{Some};
ghost use Rattle.sierra_tool.specs.Causes.{Holds, IsCasm};
ghost use Rattle.sierra_tool.specs.Stages.{ReadsSource, IsRefused, NoCasm, Works};
ghost use Rattle.sierra_tool.specs.declared.command.Command.TheVariants as commands;

use crate::answer::{Answer, Stop};
use crate::command::{Assemble, Source};
use crate::work::bytes;
use casm_text::{AsmFault, assemble};
use casm_word::Code;
use edge_io::Files;
use std::alloc::Global;

impl Assemble<'_> {
    /// Reads the text and assembles it.
    pub(crate) fn answer<F: Files>(&self, alloc: Global, files: &mut F) -> Result<Answer, Stop>
        ensures { Works (F.view files.old) (F.view files.new) (Some (commands.Asm self.now)) result }
    {
        Ok(Answer::Assembled(code(alloc, files, self.file)?))
    }
}

/// The code of a file.
fn code<F: Files>(alloc: Global, files: &mut F, name: &str) -> Result<Code, Stop>
    ensures { ReadsSource (F.view files.old) (F.view files.new) name.now
        (λ given code. Holds Source.Casm given (λ text. IsCasm text code))
        (IsRefused Source.Casm NoCasm) result }
{
    let text = bytes(alloc, files, Source::Casm, name)?;
    match assemble(alloc, &text) {
        Ok(code) => Ok(code),
        Err(AsmFault::Memory) => Err(Stop::OutOfMemory),
        Err(fault) => Err(Stop::Refused(Answer::CasmRefused(fault))),
    }
}
