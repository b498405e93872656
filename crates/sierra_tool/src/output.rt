//! Writing an answer: an answer comes in from the top call, and its text goes out to the sink: a run file, a program, lines,
//! or the one line of a refusal. It is one write, but for the line of a missing file, which takes no memory.

ghost use Rattle.std.specs.Prelude.{◌≡◌, ◌++◌, [], ◌∷◌, Some, IfOk, string_bytes};
ghost use Rattle.edge_io.specs.Sinks.{Writes};
ghost use Rattle.sierra_tool.specs.Command.{text_of};
ghost use Rattle.sierra_tool.specs.Output.{bytes_of, lines_of};
ghost use Rattle.sierra_tool.specs.Stages.{IsWritten};
ghost use Rattle.sierra_tool.specs.declared.output.Unwritten.TheVariants as unwritten;

use crate::answer::Answer;
use crate::command::Command;
use crate::lines::{
    asm_fault_line, check_fault_line, file_refusal_line, input_fault_line, text_fault_line,
    words_text,
};
use edge_io::{Failed, Sink, write_all};
use first_form::verdict_text;
use program_checks::refusal_line;
use std::alloc::{AllocError, Global};

/// Why an answer was not written.
#[derive(Clone, Copy, Debug, PartialEq, Eq, Drop)]
pub enum Unwritten {
    /// A write failed.
    Failed,
    /// There was no memory for the text, and nothing was written.
    OutOfMemory,
}

impl From<Failed> for Unwritten {
    ghost from_gives = { λ _ fault. fault ≡ unwritten.Failed };

    fn from(_: Failed) -> Unwritten {
        Unwritten::Failed
    }
}

impl From<AllocError> for Unwritten {
    ghost from_gives = { λ _ fault. fault ≡ unwritten.OutOfMemory };

    fn from(_: AllocError) -> Unwritten {
        Unwritten::OutOfMemory
    }
}

/// The text of an answer: made for it, or the bytes that it has.
#[derive(Drop)]
enum AnswerText<'a> {
    /// Text of its own.
    Made(String),
    /// A line of bytes of its own.
    Line(Vec<u8>),
    /// The bytes that the answer holds.
    Held(&'a [u8]),
}

impl AnswerText<'_> {
    /// The bytes of the text.
    fn as_bytes(&self) -> &[u8]
        ensures { result.now ≡ bytes_of self.now }
    {
        match self {
            AnswerText::Made(text) => text.as_bytes(),
            AnswerText::Line(line) => line,
            AnswerText::Held(bytes) => bytes,
        }
    }
}

/// Writes what an answer says.
pub fn write_answer<S: Sink>(
    alloc: Global,
    out: &mut S,
    command: &Command,
    answer: &Answer,
) -> Result<(), Unwritten>
    ensures { IsWritten (S.view out.old) (S.view out.new) (Some command.now) answer.now result }
{
    if let Answer::Missing(source) = answer {
        write_line(out, b"missing ", command.file(*source).as_bytes())?;
        return Ok(());
    }
    let text = text(alloc, command, answer)?;
    write_all(out, text.as_bytes())?;
    Ok(())
}

/// The text of an answer.
fn text<'a>(
    alloc: Global,
    command: &Command,
    answer: &'a Answer,
) -> Result<AnswerText<'a>, AllocError>
    ensures { IfOk result (λ text. bytes_of text ≡ text_of (Some command.now) answer.now) }
{
    match answer {
        Answer::Ran(file) => Ok(AnswerText::Held(file.as_slice())),
        Answer::Evaluated(text) => Ok(AnswerText::Held(text.as_slice())),
        Answer::Printed(text) => Ok(AnswerText::Held(text.as_slice())),
        Answer::ProgramRefused(refusal) => Ok(AnswerText::Line(refusal_line(alloc, refusal)?)),
        _ => Ok(AnswerText::Made(lines(alloc, command, answer)?)),
    }
}

/// The lines that are made for an answer as text; for bytes that it holds, and for a line of bytes, there are none.
fn lines(alloc: Global, command: &Command, answer: &Answer) -> Result<String, AllocError>
    ensures { IfOk result (λ text. string_bytes text ≡ lines_of (Some command.now) answer.now) }
{
    match answer {
        Answer::Judged(verdict) => verdict_text(alloc, verdict),
        Answer::Ran(_) | Answer::Evaluated(_) | Answer::Printed(_) | Answer::ProgramRefused(_) =>
            Ok(String::new(alloc)),
        Answer::Plan(plan) => gas_solver::print(alloc, plan),
        Answer::Assembled(code) => words_text(alloc, code),
        Answer::Usage => String::from_str(alloc, "usage\n"),
        Answer::Missing(source) => line(alloc, "missing ", command.file(*source)),
        Answer::ReadFault(source) => line(alloc, "read fault ", command.file(*source)),
        Answer::TooLong(source) => line(alloc, "too long ", command.file(*source)),
        Answer::NotBuilt => String::from_str(alloc, "not built\n"),
        Answer::TextRefused(fault) => text_fault_line(alloc, fault),
        Answer::CasmRefused(fault) => asm_fault_line(alloc, fault),
        Answer::InputRefused(fault) => input_fault_line(alloc, fault),
        Answer::NotEnoughGas { need, given } => format!(in alloc; "need {need} given {given}\n"),
        Answer::RunRefused(refusal) => file_refusal_line(alloc, refusal),
        Answer::RunRejected(fault) => check_fault_line(alloc, fault),
    }
}

/// A line of a word and a name.
fn line(alloc: Global, word: &str, name: &str) -> Result<String, AllocError>
    ensures { IfOk result (λ line. string_bytes line ≡ word.now ++ (name.now ++ 10 ∷ [])) }
{
    format!(in alloc; "{word}{name}\n")
}

/// Writes a line of a word and a name, without memory.
fn write_line<S: Sink>(out: &mut S, word: &[u8], name: &[u8]) -> Result<(), Failed>
    ensures { Writes (S.view out.old) (S.view out.new) (word.now ++ (name.now ++ 10 ∷ [])) result }
{
    write_all(out, word)?;
    write_all(out, name)?;
    write_all(out, b"\n")
}
