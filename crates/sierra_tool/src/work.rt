//! The parts of work that several commands share: the bytes of a source, and the program and the input that a run starts
//! from. Files and a name come in, and what a file stands for goes out, or the refusal that is the command's answer.

ghost use Rattle.std.specs.Prelude.{◌≡◌, ◌↔◌, Some, IfOk, IsTrue};
ghost use Rattle.first_form.specs.Forms.{IsProgram};
ghost use Rattle.sierra_text.specs.AsciiNames.{HasAsciiNames};
ghost use Rattle.sierra_text.specs.Layout.{layout};
ghost use Rattle.sierra_text.specs.Refusals.{IsShort};
ghost use Rattle.typed_values.specs.Shown.{input_meant};
ghost use Rattle.sierra_tool.specs.Causes.{Holds, IsTree, IsAcceptedText, IsForm};
ghost use Rattle.sierra_tool.specs.Command.{IsRead, RunsCode};
ghost use Rattle.sierra_tool.specs.OneNumber.{HasOneNumber};
ghost use Rattle.sierra_tool.specs.Stages.{ReadsSource, ReadsAccepted, OnceRead, IsFound, IsUnfit, IsRefused, PassesChecks, GivesForm, GivesStart, NoTree, Starts};

use crate::answer::{Answer, Stop};
use crate::command::{Command, Source};
use crate::inputs::{one_number, read_given, takes_one_felt};
use edge_io::{Files, ReadFault, read_all};
use first_form::{Input, Program, entry_gas, read_program};
use gas_solver::Accepted;
use program_checks::{Checked, Refusal, check};
use sierra_text::{TextFault, print};
use std::alloc::{AllocError, Global};

/// What a run starts from: a program, and an input with the gas that a run of it needs.
#[derive(Clone, Copy, Debug, PartialEq, Eq)]
pub struct Start {
    /// The program.
    pub program: Program,
    /// Its input.
    pub input: Input,
}

/// What a run of the command's program starts from. The command is one that is about runs, and so reads a program and an
/// input.
pub fn read_start<F: Files>(alloc: Global, files: &mut F, command: &Command) -> Result<Start, Stop>
    requires program { IsRead command.now Source.Program }
    requires input { IsRead command.now Source.Input }
    requires runs { RunsCode command.now }
    ensures { Starts (F.view files.old) (F.view files.new) (Some command.now) result }
{
    let accepted = read_accepted(alloc, files, command.file(Source::Program))?;
    start_of(alloc, files, command, &accepted)
}

/// The same, once the program has been read.
fn start_of<F: Files>(
    alloc: Global,
    files: &mut F,
    command: &Command,
    accepted: &Accepted,
) -> Result<Start, Stop>
    requires program { IsRead command.now Source.Program }
    requires input { IsRead command.now Source.Input }
    requires runs { RunsCode command.now }
    requires names { HasAsciiNames accepted.now.program }
    ensures { OnceRead (F.view files.old) (Some command.now) accepted.now (λ before. Starts before (F.view files.new) (Some command.now) result) }
{
    let program = program_of(alloc, accepted)?;
    let given = read_given(alloc, files, accepted, command.file(Source::Input))?;
    start_with(program, &given)
}

/// The start with this program and the input of one number, which may have too little gas for it.
fn start_with(program: Program, given: &typed_values::Input) -> Result<Start, Stop>
    requires { HasOneNumber (input_meant given.now) }
    ensures { GivesStart program (input_meant given.now) result }
{
    let input = one_number(given);
    let need = entry_gas(&program);
    if input.gas < need {
        return Err(Stop::Refused(Answer::NotEnoughGas {
            need: u64::from(need),
            given: u64::from(input.gas),
        }));
    }
    Ok(Start { program, input })
}

/// The bytes of a source.
pub fn bytes<F: Files>(
    alloc: Global,
    files: &mut F,
    source: Source,
    name: &str,
) -> Result<Vec<u8>, Stop>
    ensures { ReadsSource (F.view files.old) (F.view files.new) name.now
        (λ given bytes. IsFound source given bytes.items) (IsUnfit source) result }
{
    match read_all(alloc, files, name, source.limit()) {
        Ok(bytes) => Ok(bytes),
        Err(ReadFault::Missing) => Err(Stop::Refused(Answer::Missing(source))),
        Err(ReadFault::Failed) => Err(Stop::Refused(Answer::ReadFault(source))),
        Err(ReadFault::TooLong) => Err(Stop::Refused(Answer::TooLong(source))),
        Err(ReadFault::Memory) => Err(Stop::OutOfMemory),
    }
}

/// The tree of a file with a Sierra text. It can be printed.
pub fn read_tree<F: Files>(
    alloc: Global,
    files: &mut F,
    name: &str,
) -> Result<sierra_types::Program, Stop>
    ensures { ReadsSource (F.view files.old) (F.view files.new) name.now
        (λ given tree. Holds Source.Program given (λ text. IsTree text tree) × HasAsciiNames tree)
        (IsRefused Source.Program NoTree) result }
{
    let text = bytes(alloc, files, Source::Program, name)?;
    match sierra_text::read(alloc, &text) {
        Ok(tree) => Ok(tree),
        Err(TextFault::Memory) => Err(Stop::OutOfMemory),
        Err(fault) => Err(Stop::Refused(Answer::TextRefused(fault))),
    }
}

/// The program of a file, with what is found of it.
pub fn read_accepted<F: Files>(alloc: Global, files: &mut F, name: &str) -> Result<Accepted, Stop>
    ensures { ReadsAccepted (F.view files.old) (F.view files.new) name.now result }
{
    let tree = read_tree(alloc, files, name)?;
    let checked = pass_checks(alloc, &tree)?;
    Ok(checked.accept(tree))
}

/// What the checks find of a program. Stops with its first refusal, if it has one.
pub fn pass_checks(alloc: Global, tree: &sierra_types::Program) -> Result<Checked, Stop>
    requires { IsShort tree.now }
    ensures { PassesChecks tree.now result }
{
    match check(alloc, tree) {
        Ok(checked) => Ok(checked),
        Err(Refusal::Memory) => Err(Stop::OutOfMemory),
        Err(refusal) => Err(Stop::Refused(Answer::ProgramRefused(refusal))),
    }
}

/// The program of the form that is built which an accepted program is. Stops where it is of no such form.
fn program_of(alloc: Global, accepted: &Accepted) -> Result<Program, Stop>
    requires { HasAsciiNames accepted.now.program }
    ensures { GivesForm accepted.now result }
{
    match of_form(alloc, accepted)? {
        Some(program) => Ok(program),
        None => Err(Stop::Refused(Answer::NotBuilt)),
    }
}

/// The program of the form that is built which an accepted program is, if it is one.
fn of_form(alloc: Global, accepted: &Accepted) -> Result<Option<Program>, AllocError>
    requires { HasAsciiNames accepted.now.program }
    ensures { IfOk result (λ found. (program : Program) → (found ≡ Some program) ↔ IsForm accepted.now program) }
{
    let takes = takes_one_felt(alloc, accepted)?;
    let found = of_layout(alloc, accepted.program())?;
    Ok(if_so(takes, found))
}

/// The program of which a tree's plain layout is the text, if there is one.
fn of_layout(alloc: Global, tree: &sierra_types::Program) -> Result<Option<Program>, AllocError>
    requires { HasAsciiNames tree.now }
    ensures { IfOk result (λ found. (program : Program) → (found ≡ Some program) ↔ IsProgram (layout tree.now) program) }
{
    let text = print(alloc, tree)?;
    Ok(read_program(text.as_bytes()))
}

/// What was found, where this is so.
fn if_so(so: bool, found: Option<Program>) -> Option<Program>
    ensures { (program : Program) → (result ≡ Some program) ↔ ((found ≡ Some program) × IsTrue so) }
{
    if so { found } else { None }
}
