//! Laws of views. A law is a function without code, whose contract says what holds.

ghost use Rattle.std.specs.Prelude.{◌≡◌, ℕ, false, Some, None};
ghost use Rattle.std.specs.FinMap.{empty};
ghost use Rattle.hint_source.specs.declared.note.Note.{Note};
ghost use Rattle.hint_source.specs.declared.source.Query.{Query};
ghost use Rattle.hint_source.specs.Example.{start, top, answer_then, answer_before};
ghost use Rattle.hint_source.specs.declared.kind.Kind.TheVariants.{Previous, KeyCount, KeyAt, FirstAt, NextIn};
ghost use Rattle.hint_source.specs.View.{View, answer_of, view_after_query, view_after_note};

/// A source that isn't honest and was taught nothing answers nothing, and its view stays as it is through a run. So where
/// each source before the honest one is such a source, the honest one is asked every query.
pub fn silent_sources()
    ensures answer { (v : View) (q : Query) → v.honest ≡ false → v.taught ≡ empty → answer_of v q ≡ None }
    ensures query { (v : View) (q : Query) → v.honest ≡ false → view_after_query v q ≡ v }
    ensures note { (v : View) (n : Note ℕ) → v.honest ≡ false → view_after_note v n ≡ v }
{}

/// The answers from a log in which the words 4, 5 and 6 were written for the keys P - 1, 0 and P - 1.
pub fn answers_of_three_accesses()
    ensures previous { (answer_then (Previous start top) ≡ Some 6) × (answer_then (Previous start 0) ≡ Some 5) × (answer_then (Previous start 1) ≡ Some 0) }
    ensures key_count { answer_then (KeyCount start) ≡ Some 2 }
    ensures key_at { (answer_then (KeyAt start 0) ≡ Some 0) × (answer_then (KeyAt start 1) ≡ Some top) × (answer_then (KeyAt start 2) ≡ None) }
    ensures first_at { (answer_then (FirstAt start top) ≡ Some 0) × (answer_then (FirstAt start 0) ≡ Some 1) × (answer_then (FirstAt start 1) ≡ None) }
    ensures next_in { (answer_then (NextIn start top 0) ≡ Some 2) × (answer_then (NextIn start top 2) ≡ Some 0) × (answer_then (NextIn start 0 1) ≡ Some 0) × (answer_then (NextIn start 1 0) ≡ None) }

    // A log that was not begun has no answer.
    ensures previous_before { answer_before (Previous start top) ≡ None }
    ensures key_count_before { answer_before (KeyCount start) ≡ None }
    ensures key_at_before { answer_before (KeyAt start 0) ≡ None }
    ensures first_at_before { answer_before (FirstAt start top) ≡ None }
    ensures next_in_before { answer_before (NextIn start top 0) ≡ None }
{}
