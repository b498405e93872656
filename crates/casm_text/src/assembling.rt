//! Assembling: the bytes of a text in, code out.

ghost use Rattle.std.specs.Prelude.{◌≡◌, ◌≢◌, ◌⊎◌, ◌↔◌, ◌≤◌, ◌-◌, List, IsTrue, IfOk, IfErr, MatchResult, length, take};
ghost use Rattle.casm_word.specs.declared.instr.Instr.{Instr};
ghost use Rattle.casm_word.specs.Encoding.{words_of};
ghost use Rattle.text_reading.specs.Given.{Gives};
ghost use Rattle.text_reading.specs.Reading.{items_at};
ghost use Rattle.casm_text.specs.Text.{Text, standard};
ghost use Rattle.casm_text.specs.Reading.{instr_at, code_at};
ghost use Rattle.casm_text.specs.declared.fault.AsmFault.{AsmFault};
ghost use Rattle.casm_text.specs.Refusals.{IsShort, Refused};

use crate::fault::{AsmFault, NumberKind};
use crate::reading::instr;
use casm_word::{Code, Instr, encode};
use std::alloc::Global;
use text_reading::{Stop, blanks};

/// The greatest number of words that code may have.
const LONGEST: u64 = 1 << 24;

/// Instructions up to the end of the text.
fn instrs(alloc: Global, rest: &mut &[u8]) -> Result<Code, Stop<NumberKind>>
    ensures { Gives (λ code. code) result rest.new.now (items_at (instr_at standard) rest.old.now) }
{
    let mut code = Code::new(alloc);
    while !rest.is_empty() {
        let i = instr(rest)?;
        code.push(i)?;
    }
    Ok(code)
}

/// A whole text.
#[tactic(auto, unfolding(crate::specs::Reading::code_at, text_reading::specs::TokenReading::text_at))]
fn code(alloc: Global, rest: &mut &[u8]) -> Result<Code, Stop<NumberKind>>
    ensures { Gives (λ code. code) result rest.new.now (code_at standard rest.old.now) }
{
    blanks(rest)?;
    instrs(alloc, rest)
}

/// How many words an instruction takes.
fn word_count(i: &Instr) -> u64
    ensures value { result ≡ length (words_of i.now) }
    ensures bound { result ≤ 2 }
{
    match encode(i).imm {
        Some(_) => 2,
        None => 1,
    }
}

/// Whether the code has no more words than code may have.
fn is_short(code: &[Instr]) -> bool
    ensures { IsTrue result ↔ IsShort code.now }
{
    let mut count = 0;
    for i in code {
        count += word_count(i);
        if count > LONGEST {
            return false;
        }
    }
    true
}

/// The code that has this text.
///
/// A refusal is the first in the text: the place of a syntax fault is the first byte behind the longest prefix that
/// some code's text continues. The time is linear in the length of the text.
pub fn assemble(alloc: Global, text: &[u8]) -> Result<Code, AsmFault>
    // What is answered is the code that has this text.
    ensures found { IfOk result (λ code. Text standard code text.now × IsShort code) }
    // Code that has this text is answered, unless memory runs out.
    ensures only { (code : List Instr) → Text standard code text.now → IsShort code → MatchResult result (λ c. c ≡ code) (λ fault. fault ≡ AsmFault.Memory) }
    // A refusal has its cause, and a cause is answered unless memory runs out.
    ensures refused { IfErr result (λ fault. fault ≢ AsmFault.Memory → Refused text.now fault) }
    ensures exact { (fault : AsmFault) → Refused text.now fault → MatchResult result (λ c. ⊥) (λ f. (f ≡ fault) ⊎ (f ≡ AsmFault.Memory)) }
{
    let mut rest = text;
    match code(alloc, &mut rest) {
        Ok(code) => {
            if is_short(code.instrs()) {
                Ok(code)
            } else {
                Err(AsmFault::TooLong)
            }
        }
        Err(stop) => Err(AsmFault::behind(front_of(text, rest), stop)),
    }
}

/// The bytes of a text before those that are left.
fn front_of<'a>(text: &'a [u8], rest: &[u8]) -> &'a [u8]
    ensures { result.now ≡ take (length text.now - length rest.now) text.now }
{
    &text[..text.len().saturating_sub(rest.len())]
}
