//! Laws of steps, and of memories that grow. A law is a function without code, whose contract says what holds.

ghost use Rattle.std.specs.Prelude.{◌≡◌, ◌≢◌, ◌⊎◌, ◌↔◌, ℕ, Option, Some, None};
ghost use Rattle.std.specs.FinMap.{get, insert};
ghost use Rattle.casm_word.specs.declared.flags.Flags.{Flags};
ghost use Rattle.casm_word.specs.Word.{Word};
ghost use Rattle.ro_machine.specs.declared.machine.State.{State};
ghost use Rattle.ro_machine.specs.declared.machine.StepFault.{StepFault};
ghost use Rattle.ro_machine.specs.declared.machine.StepFault.TheVariants.{BadWord};
ghost use Rattle.ro_machine.specs.Cells.{Cells};
ghost use Rattle.ro_machine.specs.Extends.{Extends};
ghost use Rattle.ro_machine.specs.Step.{Step};
ghost use Rattle.ro_machine.specs.StepBy.{StepBy, Fetches};
ghost use Rattle.ro_machine.specs.Stops.{Stops};

/// A step is the flags of the word at pc and what these flags do.
pub fn step_by_flags()
    ensures { (cells : ℕ → Option ℕ) (s t : State) → Step cells s t ↔ ((f : Flags) × Fetches cells s f × StepBy cells f s t) }
{}

/// A state has at most one next state.
pub fn one_step()
    ensures { (cells : ℕ → Option ℕ) (s t u : State) → Step cells s t → Step cells s u → t ≡ u }
{}

/// A state stops for at most one fault, and a state that stops has no step.
pub fn one_stop()
    ensures faults { (cells : ℕ → Option ℕ) (s : State) (a b : StepFault) → Stops cells s a → Stops cells s b → a ≡ b }
    ensures no_step { (cells : ℕ → Option ℕ) (s t : State) (fault : StepFault) → Stops cells s fault → ¬ Step cells s t }
{}

/// A state has a step or stops.
pub fn steps_or_stops()
    ensures { (cells : ℕ → Option ℕ) (s : State) → ((t : State) × Step cells s t) ⊎ ((fault : StepFault) × Stops cells s fault) }
{}

/// A state whose word is undefined, which no flags have, has no step and stops for its word.
pub fn undefined_word_stops()
    ensures no_step { (cells : ℕ → Option ℕ) (s t : State) (word : ℕ) → cells s.pc ≡ Some word → ((f : Flags) → ¬ Word f word) → ¬ Step cells s t }
    ensures stops { (cells : ℕ → Option ℕ) (s : State) (word : ℕ) → cells s.pc ≡ Some word → ((f : Flags) → ¬ Word f word) → Stops cells s (BadWord s.pc) }
{}

/// A cell that isn't listed, or is listed with this word, is added without a change to any other.
pub fn insert_extends()
    ensures { (m : Cells) (addr word : ℕ) → (get m addr ≡ None) ⊎ (get m addr ≡ Some word) → Extends (get m) (get (insert m addr word)) }
{}

/// A step stays a step as cells are added.
pub fn step_extends()
    ensures { (m more : ℕ → Option ℕ) (s t : State) → Extends m more → Step m s t → Step more s t }
{}
