//! Laws of CASM text. A law is a function without code, whose contract says what holds.

ghost use Rattle.std.specs.Prelude.{◌≡◌, ◌⊎◌, ℕ, List};
ghost use Rattle.std.specs.List.{All};
ghost use Rattle.casm_word.specs.declared.instr.Instr.{Instr};
ghost use Rattle.casm_word.specs.Bounds.{IsInstrInField, IsInstrNear};
ghost use Rattle.casm_text.specs.declared.fault.AsmFault.{AsmFault};
ghost use Rattle.casm_text.specs.Text.{Text, standard};
ghost use Rattle.casm_text.specs.Printing.{printed};
ghost use Rattle.casm_text.specs.Refusals.{IsShort, Refused};

/// The text of a code is the text of no other code.
pub fn one_code()
    ensures { (a b : List Instr) (text : List ℕ) → Text standard a text → Text standard b text → a ≡ b }
{}

/// What is printed is a text of the code, so assembling it gives the code again.
pub fn printed_is_text()
    ensures { (code : List Instr) → All IsInstrInField code → All IsInstrNear code → Text standard code (printed code) }
{}

/// A text is refused for one reason.
pub fn one_refusal()
    ensures { (text : List ℕ) (a b : AsmFault) → Refused text a → Refused text b → a ≡ b }
{}

/// Each text is that of code with at most as many words as code may have, or it is refused, and never both.
pub fn code_or_refusal()
    ensures either { (text : List ℕ) → ((code : List Instr) × Text standard code text × IsShort code) ⊎ ((fault : AsmFault) × Refused text fault) }
    ensures not_both { (text : List ℕ) (code : List Instr) (fault : AsmFault) → Refused text fault → Text standard code text → IsShort code → ⊥ }
{}
