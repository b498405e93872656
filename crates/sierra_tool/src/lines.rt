//! The lines of refusals, and the words of assembled code: a refusal or code comes in, and its text goes out, for the output
//! to write.

ghost use Rattle.std.specs.Prelude.{◌≡◌, ◌++◌, IfOk, OnOk, string_bytes};
ghost use Rattle.sierra_tool.specs.Lines.{text_fault_line, asm_fault_line, input_fault_line, file_refusal_line, step_fault_text, word_text, check_fault_line, word_line, instr_lines, words_text};

use casm_text::AsmFault;
use casm_word::{Code, Instr, encode};
use felt64::Felt;
use first_form::CheckFault;
use ro_machine::StepFault;
use run_file::FileRefusal;
use sierra_text::TextFault;
use std::alloc::{AllocError, Global};
use typed_values::InputFault;

/// The line of a Sierra text that is refused.
pub fn text_fault_line(alloc: Global, fault: &TextFault) -> Result<String, AllocError>
    ensures { IfOk result (λ line. string_bytes line ≡ text_fault_line fault.now) }
{
    match *fault {
        TextFault::Syntax(place) => {
            let (line, column) = (place.line, place.column);
            format!(in alloc; "T1 {line} {column}\n")
        }
        TextFault::NumberTooWide(place) => {
            let (line, column) = (place.line, place.column);
            format!(in alloc; "T2 {line} {column}\n")
        }
        TextFault::TooLong => String::from_str(alloc, "T3\n"),
        TextFault::Memory => Ok(String::new(alloc)),
    }
}

/// The line of a CASM text that is refused.
pub fn asm_fault_line(alloc: Global, fault: &AsmFault) -> Result<String, AllocError>
    ensures { IfOk result (λ line. string_bytes line ≡ asm_fault_line fault.now) }
{
    match *fault {
        AsmFault::Syntax(place) => {
            let (line, column) = (place.line, place.column);
            format!(in alloc; "A1 {line} {column}\n")
        }
        AsmFault::OffsetRange(line) => format!(in alloc; "A2 {line}\n"),
        AsmFault::ImmRange(line) => format!(in alloc; "A3 {line}\n"),
        AsmFault::TooLong => String::from_str(alloc, "A4\n"),
        AsmFault::Memory => Ok(String::new(alloc)),
    }
}

/// The line of a text that is no input of main.
pub fn input_fault_line(alloc: Global, fault: &InputFault) -> Result<String, AllocError>
    ensures { IfOk result (λ line. string_bytes line ≡ input_fault_line fault.now) }
{
    match *fault {
        InputFault::Syntax(place) => {
            let (line, column) = (place.line, place.column);
            format!(in alloc; "I1 {line} {column}\n")
        }
        InputFault::OutOfRange(place) => {
            let (line, column) = (place.line, place.column);
            format!(in alloc; "I2 {line} {column}\n")
        }
        InputFault::LineCount { expected, found } => {
            format!(in alloc; "I3 {expected} {found}\n")
        }
        InputFault::LongArray(place) => {
            let (line, column) = (place.line, place.column);
            format!(in alloc; "I4 {line} {column}\n")
        }
        InputFault::GasRange => String::from_str(alloc, "I5\n"),
        InputFault::Memory => Ok(String::new(alloc)),
    }
}

/// The line of a file that is no run file.
pub fn file_refusal_line(alloc: Global, refusal: &FileRefusal) -> Result<String, AllocError>
    ensures { IfOk result (λ line. string_bytes line ≡ file_refusal_line refusal.now) }
{
    match *refusal {
        FileRefusal::Magic => String::from_str(alloc, "F1\n"),
        FileRefusal::WordRange(at) => format!(in alloc; "F2 {at}\n"),
        FileRefusal::Order(at) => format!(in alloc; "F3 {at}\n"),
        FileRefusal::Cut(at) => format!(in alloc; "F4 {at}\n"),
        FileRefusal::Extra(at) => format!(in alloc; "F5 {at}\n"),
        FileRefusal::StepsAbove => String::from_str(alloc, "F6\n"),
        FileRefusal::Memory => Ok(String::new(alloc)),
    }
}

/// The line of a run that isn't accepted.
pub fn check_fault_line(alloc: Global, fault: &CheckFault) -> Result<String, AllocError>
    ensures { IfOk result (λ line. string_bytes line ≡ check_fault_line fault.now) }
{
    match *fault {
        CheckFault::CodeCell(at) => format!(in alloc; "C1 {at}\n"),
        CheckFault::Start => String::from_str(alloc, "C2\n"),
        CheckFault::Step(state, fault) => {
            let fault = step_fault_text(alloc, &fault)?;
            format!(in alloc; "C3 {state} {fault}\n")
        }
        CheckFault::NextState(state) => format!(in alloc; "C4 {state}\n"),
        CheckFault::FinalEarly(state) => format!(in alloc; "C5 {state}\n"),
        CheckFault::FinalMissing => String::from_str(alloc, "C6\n"),
        CheckFault::RangeCell(at, word) => format!(in alloc; "C7 {at} {word}\n"),
        CheckFault::ArgCells(at, expected, found) => {
            let expected = word_text(alloc, expected)?;
            let found = word_text(alloc, found)?;
            format!(in alloc; "C8 {at} {expected} {found}\n")
        }
    }
}

/// Why no step starts at a state.
fn step_fault_text(alloc: Global, fault: &StepFault) -> Result<String, AllocError>
    ensures { IfOk result (λ text. string_bytes text ≡ step_fault_text fault.now) }
{
    match *fault {
        StepFault::CellMissing(at) => format!(in alloc; "missing {at}"),
        StepFault::BadWord(pc) => format!(in alloc; "badword {pc}"),
        StepFault::AssertFails(left, right) => format!(in alloc; "assert {left} {right}"),
        StepFault::CallFails(left, right) => format!(in alloc; "call {left} {right}"),
    }
}

/// A word, or `none`.
fn word_text(alloc: Global, word: Option<Felt>) -> Result<String, AllocError>
    ensures { IfOk result (λ text. string_bytes text ≡ word_text word) }
{
    match word {
        Some(word) => word.to_string(alloc),
        None => String::from_str(alloc, "none"),
    }
}

/// The words of code, each on a line.
pub fn words_text(alloc: Global, code: &Code) -> Result<String, AllocError>
    ensures { IfOk result (λ text. string_bytes text ≡ words_text code.now) }
{
    let mut text = String::new(alloc);
    for i in code.instrs() {
        push_instr(&mut text, i)?;
    }
    Ok(text)
}

/// Adds the lines of an instruction's words.
fn push_instr(text: &mut String, i: &Instr) -> Result<(), AllocError>
    ensures { OnOk result (string_bytes text.new ≡ string_bytes text.old ++ instr_lines i.now) }
{
    let encoded = encode(i);
    push_word(text, encoded.word)?;
    if let Some(imm) = encoded.imm {
        push_word(text, imm)?;
    }
    Ok(())
}

/// Adds the line of a word.
fn push_word(text: &mut String, word: u64) -> Result<(), AllocError>
    ensures { OnOk result (string_bytes text.new ≡ string_bytes text.old ++ word_line word) }
{
    writeln!(text, "0x{word:016x}")
}
