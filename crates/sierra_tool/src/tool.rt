//! The top call: arguments, files and a place for the output come in from the program, and the exit status goes out.

ghost use Rattle.std.specs.Prelude.{◌≡◌, map, string_bytes, Some, None};
ghost use Rattle.edge_io.specs.Counts.{Rose};
ghost use Rattle.edge_io.specs.Files.{Keeps};
ghost use Rattle.sierra_tool.specs.Command.{text_of};
ghost use Rattle.sierra_tool.specs.Stages.{Works, IsDelivered};
ghost use Rattle.sierra_tool.specs.Exact.{IsExact};
ghost use Rattle.sierra_tool.specs.Headline.{RunsAreAccepted, OutcomesAreMeant};
ghost use Rattle.sierra_tool.specs.Tool.{Tool, Delivers};
ghost use Rattle.sierra_tool.specs.Verdicts.{VerdictsAreMeant};

use crate::answer::{Answer, Stop};
use crate::command::Command;
use crate::laws::known;
use crate::output::{Unwritten, write_answer};
use edge_io::{Files, Sink, write_all};
use std::alloc::Global;

/// The hint sources of a run. The commands that are built ask none.
#[derive(Debug, Drop)]
pub struct Shelf {}

/// The status of a write that failed.
const WRITE_FAULT: u8 = 5;

/// The status of a call that ran out of memory.
const OUT_OF_MEMORY: u8 = 6;

/// Does what the arguments ask, and answers the exit status.
pub fn sierra_tool<F: Files, S: Sink>(
    alloc: Global,
    arguments: &[String],
    files: &mut F,
    out: &mut S,
    shelf: Shelf,
) -> u8
    ensures keeps { Keeps (F.view files.old) (F.view files.new) }

    // The status and what was written are those of the answer that the arguments and the files cause.
    ensures tool { Tool (map string_bytes arguments.now)
        (F.view files.old) (F.view files.new) (S.view out.old) (S.view out.new) result }

    // Of known files, each status comes if and only if its cause holds, faults and out of memory aside.
    ensures exact { IsExact (map string_bytes arguments.now) (F.view files.old).contents result }

    // What `check` writes at status 0, whoever made the run file, is the meaning of the program on the input, and the run costs
    // at most the gas used.
    ensures verdicts { VerdictsAreMeant (map string_bytes arguments.now) (F.view files.old) (S.view out.old) (S.view out.new) result }

    // What `run` writes at status 0 is a run file that `check` accepts.
    ensures runs { RunsAreAccepted (map string_bytes arguments.now) (F.view files.old) (S.view out.old) (S.view out.new) result }

    // What `eval` writes at status 0 is what the program means on the input.
    ensures outcomes { OutcomesAreMeant (map string_bytes arguments.now) (F.view files.old) (S.view out.old) (S.view out.new) result }

    // Of any files, and any output.
    ensures missed { result ≡ 3 → Rose (F.view files.old).misses (F.view files.new).misses }
    ensures read_failed { result ≡ 4 → Rose (F.view files.old).faults (F.view files.new).faults }
    ensures write_failed { result ≡ 5 → Rose (S.view out.old).faults (S.view out.new).faults }
{
    let Shelf {} = shelf;
    known();
    work(alloc, arguments, files, out)
}

/// Answers the arguments, and gives the status.
fn work<F: Files, S: Sink>(alloc: Global, arguments: &[String], files: &mut F, out: &mut S) -> u8
    ensures keeps { Keeps (F.view files.old) (F.view files.new) }
    ensures tool { Tool (map string_bytes arguments.now)
        (F.view files.old) (F.view files.new) (S.view out.old) (S.view out.new) result }
{
    known();
    let Some(command) = Command::of(arguments) else {
        return refuse(out);
    };
    match answer(alloc, files, &command) {
        Ok(answer) => deliver(alloc, out, &command, &answer),
        Err(Stop::Refused(answer)) => deliver(alloc, out, &command, &answer),
        Err(Stop::OutOfMemory) => OUT_OF_MEMORY,
    }
}

/// Does the work of a command.
fn answer<F: Files>(alloc: Global, files: &mut F, command: &Command) -> Result<Answer, Stop>
    ensures { Works (F.view files.old) (F.view files.new) (Some command.now) result }
{
    match command {
        Command::Check(check) => check.answer(alloc, files),
        Command::Run(execute) => execute.answer(alloc, files),
        Command::Eval(evaluate) => evaluate.answer(alloc, files),
        Command::Gas(gas) => gas.answer(alloc, files),
        Command::Show(show) => show.answer(alloc, files),
        Command::Asm(assemble) => assemble.answer(alloc, files),
        Command::Planned => Err(Stop::Refused(Answer::NotBuilt)),
    }
}

/// Writes that the arguments are no command.
fn refuse<S: Sink>(out: &mut S) -> u8
    ensures { Delivers (S.view out.old) (S.view out.new) (text_of None Answer.Usage) 2 result }
{
    match write_all(out, b"usage\n") {
        Ok(()) => Answer::Usage.status(),
        Err(_) => WRITE_FAULT,
    }
}

/// Writes an answer, and gives its status.
fn deliver<S: Sink>(alloc: Global, out: &mut S, command: &Command, answer: &Answer) -> u8
    ensures { IsDelivered (S.view out.old) (S.view out.new) (Some command.now) answer.now result }
{
    match write_answer(alloc, out, command, answer) {
        Ok(()) => answer.status(),
        Err(Unwritten::Failed) => WRITE_FAULT,
        Err(Unwritten::OutOfMemory) => OUT_OF_MEMORY,
    }
}
