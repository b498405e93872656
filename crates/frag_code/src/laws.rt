//! Laws of fragments and their code. A law is a function without code, whose contract says what holds.

ghost use Rattle.std.specs.Prelude.{◌≡◌, ℕ, List, Option};
ghost use Rattle.std.specs.FinMap.{get};
ghost use Rattle.casm_word.specs.declared.flags.Flags.{Flags};
ghost use Rattle.ro_machine.specs.declared.machine.State.{State};
ghost use Rattle.ro_machine.specs.Cells.{Cells};
ghost use Rattle.ro_machine.specs.Extends.{Extends};
ghost use Rattle.frag_code.specs.declared.piece.Piece.{Piece};
ghost use Rattle.frag_code.specs.Emit.{code_of};
ghost use Rattle.frag_code.specs.Evaluation.{Tally, Evaluation};
ghost use Rattle.frag_code.specs.Filling.{Gives};
ghost use Rattle.frag_code.specs.Meaning.{IsPut, StaysOrExits, StretchesEvaluate, EvaluationsStretch};

/// Steps from the first cell of a fragment's code stay in the code until they reach the exit of an evaluation.
pub fn steps_stay_or_exit()
    ensures { (f : List Piece) (at : ℕ) (exits : ℕ → ℕ) → IsPut f at exits → StaysOrExits f at exits (code_of f at exits) }
{}

/// A stretch through a fragment's code, from its first cell to an exit, is an evaluation with the same counts.
pub fn stretches_are_evaluations()
    ensures { (f : List Piece) (at : ℕ) (exits : ℕ → ℕ) → IsPut f at exits → StretchesEvaluate f at exits (code_of f at exits) }
{}

/// Each evaluation of a fragment is a stretch through its code.
pub fn evaluations_are_stretches()
    ensures { (f : List Piece) (at : ℕ) (exits : ℕ → ℕ) → IsPut f at exits → EvaluationsStretch f at exits (code_of f at exits) }
{}

/// An evaluation stays one as cells are added.
pub fn evaluations_extend()
    ensures { (f : List Piece) (m more : ℕ → Option ℕ) (ap fp k : ℕ) (end : Tally) → Extends m more → Evaluation f m ap fp k end → Evaluation f more ap fp k end }
{}

/// Over the same cells a fragment has one evaluation at most.
pub fn one_evaluation()
    ensures { (f : List Piece) (m : ℕ → Option ℕ) (ap fp k l : ℕ) (end last : Tally) → Evaluation f m ap fp k end → Evaluation f m ap fp l last → (k ≡ l) × (end ≡ last) }
{}

/// What the equation of a step gives keeps each word that was there.
pub fn fillings_extend()
    ensures { (f : Flags) (s : State) (m more : Cells) → Gives f s m more → Extends (get m) (get more) }
{}

/// The equation of a step gives the same cells the same words each time.
pub fn one_filling()
    ensures { (f : Flags) (s : State) (m more most : Cells) → Gives f s m more → Gives f s m most → more ≡ most }
{}
