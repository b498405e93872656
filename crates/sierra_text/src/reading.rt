//! Reading: the bytes of a text in, a program out.

ghost use Rattle.std.specs.Prelude.{◌≡◌, ◌≢◌, ◌⊎◌, ◌↔◌, ◌-◌, IsTrue, IfOk, IfErr, MatchResult, MatchBool, length, take};
ghost use Rattle.text_reading.specs.Given.{Gives};
ghost use Rattle.sierra_types.specs.declared.program.Program.{Program};
ghost use Rattle.sierra_text.specs.Text.{Text, standard};
ghost use Rattle.sierra_text.specs.ProgramReading.{at_start, declarations_at, program_at};
ghost use Rattle.sierra_text.specs.declared.fault.TextFault.{TextFault};
ghost use Rattle.sierra_text.specs.Refusals.{IsShort, IsLong, Refused};
ghost use Rattle.sierra_text.specs.AsciiNames.{HasAsciiNames};

use crate::declaring::declaration;
use crate::fault::TextFault;
use crate::parts::Parts;
use sierra_types::Program;
use std::alloc::Global;
use text_reading::{Stop, blanks};

/// The greatest number of statements.
const MOST_STATEMENTS: usize = 1 << 20;

/// The greatest number of types, of libfuncs and of functions.
const MOST_DECLARATIONS: usize = 1 << 16;

/// Declarations up to the end of the text.
fn declarations(alloc: Global, rest: &mut &[u8]) -> Result<Program, Stop<()>>
    ensures { Gives (λ program. program) result rest.new.now (declarations_at standard at_start rest.old.now) }
{
    let mut parts = Parts::new(alloc);
    while !rest.is_empty() {
        let next = declaration(alloc, rest, parts.part)?;
        parts.push(next)?;
    }
    Ok(parts.into_program())
}

/// A whole text.
#[tactic(auto, unfolding(crate::specs::ProgramReading::program_at))]
fn program(alloc: Global, rest: &mut &[u8]) -> Result<Program, Stop<()>>
    ensures { Gives (λ program. program) result rest.new.now (program_at standard rest.old.now) }
{
    blanks(rest)?;
    declarations(alloc, rest)
}

/// Whether the program is no longer than a program may be.
fn is_short(program: &Program) -> bool
    ensures { MatchBool result (IsShort program.now) (IsLong program.now) }
{
    if program.types.items().len() > MOST_DECLARATIONS {
        return false;
    }
    if program.libfuncs.items().len() > MOST_DECLARATIONS {
        return false;
    }
    if program.statements.items().len() > MOST_STATEMENTS {
        return false;
    }
    program.functions.items().len() <= MOST_DECLARATIONS
}

/// The program that has this text.
///
/// A refusal is the first in the text: the place of a syntax fault is the first byte behind the longest prefix that
/// some program's text continues. The time is linear in the length of the text.
pub fn read(alloc: Global, text: &[u8]) -> Result<Program, TextFault>
    // What is answered is the program that has this text.
    ensures found { IfOk result (λ program. Text standard program text.now × IsShort program) }
    // It can be printed.
    ensures named { IfOk result (λ program. HasAsciiNames program) }
    // A program that has this text is answered, unless memory runs out.
    ensures only { (program : Program) → Text standard program text.now → IsShort program → MatchResult result (λ p. p ≡ program) (λ fault. fault ≡ TextFault.Memory) }
    // A refusal has its cause, and a cause is answered unless memory runs out.
    ensures refused { IfErr result (λ fault. fault ≢ TextFault.Memory → Refused text.now fault) }
    ensures exact { (fault : TextFault) → Refused text.now fault → MatchResult result (λ p. ⊥) (λ f. (f ≡ fault) ⊎ (f ≡ TextFault.Memory)) }
{
    let mut rest = text;
    match program(alloc, &mut rest) {
        Ok(program) => {
            if is_short(&program) {
                Ok(program)
            } else {
                Err(TextFault::TooLong)
            }
        }
        Err(stop) => Err(TextFault::behind(front_of(text, rest), stop)),
    }
}

/// The bytes of a text before those that are left.
fn front_of<'a>(text: &'a [u8], rest: &[u8]) -> &'a [u8]
    ensures { result.now ≡ take (length text.now - length rest.now) text.now }
{
    &text[..text.len().saturating_sub(rest.len())]
}
