//! Laws about the definitions alone, which readers and writers rest on.

ghost use Rattle.std.specs.Prelude.{◌≡◌, ◌⊎◌, ℕ, List};
ghost use Rattle.sierra_types.specs.declared.program.Program.{Program};
ghost use Rattle.sierra_text.specs.declared.fault.TextFault.{TextFault};
ghost use Rattle.sierra_text.specs.Text.{Text, standard};
ghost use Rattle.sierra_text.specs.AsciiNames.{HasAsciiNames};
ghost use Rattle.sierra_text.specs.Layout.{layout};
ghost use Rattle.sierra_text.specs.Refusals.{IsShort, Refused, ReadsAs};

/// The text of a program is the text of no other.
pub fn one_program()
    ensures { (text : List ℕ) (one other : Program) → Text standard one text → Text standard other text → one ≡ other }
{}

/// The names of a text's program are ASCII, so that it can be printed.
pub fn names_are_ascii()
    ensures { (program : Program) (text : List ℕ) → Text standard program text → HasAsciiNames program }
{}

/// The plain layout of a text's program is a text of the program.
pub fn printed_is_text()
    ensures { (program : Program) (text : List ℕ) → Text standard program text → Text standard program (layout program) }
{}

/// Reading the plain layout of a text's program gives the program again, if it is no longer than a program may be.
pub fn printed_reads_back()
    ensures { (program : Program) (text : List ℕ) → Text standard program text → IsShort program → ReadsAs program (layout program) }
{}

/// Two programs that texts have are equal if their plain layouts are.
pub fn one_layout()
    ensures { (one other : Program) (text other_text : List ℕ) → Text standard one text → Text standard other other_text → layout one ≡ layout other → one ≡ other }
{}

/// A text is refused for one reason.
pub fn one_refusal()
    ensures { (text : List ℕ) (a b : TextFault) → Refused text a → Refused text b → a ≡ b }
{}

/// Each text is that of a program with no more parts than a program may have, or it is refused, and never both.
pub fn program_or_refusal()
    ensures either { (text : List ℕ) → ((program : Program) × Text standard program text × IsShort program) ⊎ ((fault : TextFault) × Refused text fault) }
    ensures not_both { (text : List ℕ) (program : Program) (fault : TextFault) → Refused text fault → Text standard program text → IsShort program → ⊥ }
{}
