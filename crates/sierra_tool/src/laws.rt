//! Laws about the definitions, without code: what the files gave to a command causes one answer. Whoever reads the contract
//! of the top call reads them beside it.

ghost use Rattle.std.specs.Prelude.{◌≡◌, ℕ, ◌<◌, List, All, Option};
ghost use Rattle.sierra_tool.specs.declared.answer.Answer.{Answer};
ghost use Rattle.sierra_tool.specs.declared.command.Command.{Command};
ghost use Rattle.sierra_tool.specs.declared.command.Source.{Source};
ghost use Rattle.sierra_tool.specs.Causes.{SourceReadings, found, Cause};
ghost use Rattle.sierra_tool.specs.Known.{Known};

use sierra_meaning::{every_meaning_ends, one_meaning};
use typed_values::{given_types, one_fault, texts_of_inputs, told_faults};

/// What the sources gave to a command causes one answer at most.
pub fn one_answer()
    ensures { (command : Option Command) (readings : SourceReadings) (a b : Answer) →
        Cause command readings a → Cause command readings b → a ≡ b }
{
    known();
}

/// What they gave causes an answer, whatever it is: that it causes none can't be.
pub fn some_answer()
    ensures { (command : Option Command) (readings : SourceReadings) →
        ((source : Source) (bytes : List ℕ) → readings source ≡ found bytes → All (λ byte. byte < 256) bytes) →
        ((answer : Answer) → Cause command readings answer → ⊥) → ⊥ }
{
    known();
}

/// What the crates below keep of inputs and of meanings.
pub(crate) fn known()
    ensures { Known }
{
    texts_of_inputs();
    given_types();
    told_faults();
    one_fault();
    one_meaning();
    every_meaning_ends();
}
