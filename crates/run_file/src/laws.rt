//! Laws about the definitions alone, which the tool and the trace check rest on.

ghost use Rattle.std.specs.Prelude.{◌≡◌, ◌<◌, ◌↔◌, ℕ, List, All, Ok};
ghost use Rattle.run_file.specs.declared.run.Run.{Run};
ghost use Rattle.run_file.specs.Spelling.{IsRun, spelling};
ghost use Rattle.run_file.specs.Reading.{reading};

/// The reading of bytes is the run that they spell, and no other bytes are read.
pub fn reads_exactly()
    ensures { (bytes : List ℕ) (run : Run) → All (λ byte. byte < 256) bytes
        → (reading bytes ≡ Ok run) ↔ (IsRun run × (bytes ≡ spelling run)) }
{}

/// A file spells one run at most.
pub fn one_run()
    ensures { (a b : Run) → IsRun a → IsRun b → spelling a ≡ spelling b → a ≡ b }
{}
