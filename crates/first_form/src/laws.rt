//! Laws about the definitions, without code: what every accepted run shows, that such runs exist, and that a run is accepted
//! or rejected for one fault. Whoever reads the contract of the tool's top call reads them beside it.

ghost use Rattle.std.specs.Prelude.{◌≡◌, ◌⊎◌, ℕ, ◌<◌, ◌≤◌, ◌^◌, List, length, Option, Some};
ghost use Rattle.std.specs.FinMap.{get};
ghost use Rattle.std.specs.List.{flat_map};
ghost use Rattle.felt64.specs.Field.{modulus};
ghost use Rattle.casm_word.specs.Encoding.{words_of};
ghost use Rattle.ro_machine.specs.declared.machine.State.{State};
ghost use Rattle.first_form.specs.declared.program.Program.{Program};
ghost use Rattle.first_form.specs.declared.input.Input.{Input};
ghost use Rattle.first_form.specs.declared.verdict.Verdict.{Verdict};
ghost use Rattle.first_form.specs.declared.accepted.CheckFault.{CheckFault};
ghost use Rattle.run_file.specs.declared.run.Run.{Run};
ghost use Rattle.run_file.specs.Spelling.{IsRun, spelling};
ghost use Rattle.first_form.specs.Accepted.{Accepts, most_states};
ghost use Rattle.first_form.specs.Honest.{honest_run, IsNeeded};
ghost use Rattle.first_form.specs.Meaning.{entry_gas, code_of, instructions_of, parameter_types, arguments_of, Means};
ghost use Rattle.first_form.specs.Rejected.{IsRejected};
ghost use Rattle.first_form.specs.Runs.{IsAccepted, Shows, CostsAtMost, IsVerdict};

/// The code of each program is what its instructions take in memory.
pub fn code_is_of_instructions()
    ensures { (program : Program) → code_of program ≡ flat_map words_of (instructions_of program) }
{}

/// Whatever an accepted run lists, the verdict that it shows is the meaning, and it costs at most the gas used.
pub fn accepted_runs_mean()
    ensures { (program : Program) (input : Input) (rc : ℕ) (m : ℕ → Option ℕ) (states : List State) (verdict : Verdict) →
        Accepts (code_of program) (parameter_types program) (arguments_of program input) rc m states →
        Shows program input rc m states verdict → Means program input verdict.outcome × CostsAtMost verdict }
{}

/// A run exists: of each program and input of the field the honest run is accepted, and from the gas that the program
/// needs on it has a verdict. It has a file, from which it is read again, and which is short enough to be read. It lists the code, the argument's cell and the
/// cells that its steps read, and no others.
pub fn honest_runs_are_accepted()
    ensures accepted { (program : Program) (input : Input) → program.constant < modulus → input.argument < modulus →
        IsAccepted program input (honest_run program input) }
    ensures shown { (program : Program) (input : Input) → program.constant < modulus → input.argument < modulus →
        entry_gas program ≤ input.gas → (verdict : Verdict) × IsVerdict program input (honest_run program input) verdict }
    ensures spelled { (program : Program) (input : Input) → program.constant < modulus → input.argument < modulus →
        IsRun (honest_run program input) }
    ensures short { (program : Program) (input : Input) → length (spelling (honest_run program input)) ≤ 2 ^ 24 }
    ensures needed { (program : Program) (input : Input) (at word : ℕ) →
        get (honest_run program input).memory at ≡ Some word →
        IsNeeded (code_of program) (parameter_types program) (get (honest_run program input).memory) (honest_run program input).states at }
{}

/// Of each run with at most as many states as a run may have, exactly one holds: it is accepted, or it is rejected for
/// one fault.
pub fn runs_have_one_cause()
    ensures either { (program : Program) (input : Input) (run : Run) → input.argument < modulus → length run.states ≤ most_states →
        IsAccepted program input run ⊎ ((fault : CheckFault) × IsRejected program input run fault) }
    ensures not_both { (program : Program) (input : Input) (run : Run) (fault : CheckFault) →
        IsRejected program input run fault → IsAccepted program input run → ⊥ }
    ensures once { (program : Program) (input : Input) (run : Run) (a b : CheckFault) →
        IsRejected program input run a → IsRejected program input run b → a ≡ b }
{}

/// An accepted run with the gas that the program needs has a verdict, and one alone.
pub fn accepted_runs_have_verdicts()
    ensures some { (program : Program) (input : Input) (run : Run) → entry_gas program ≤ input.gas →
        IsAccepted program input run → (verdict : Verdict) × IsVerdict program input run verdict }
    ensures once { (program : Program) (input : Input) (run : Run) (a b : Verdict) →
        IsVerdict program input run a → IsVerdict program input run b → a ≡ b }
{}
