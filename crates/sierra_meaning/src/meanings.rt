//! Laws of what programs mean. A law is a function without code, whose contract says what holds.

ghost use Rattle.std.specs.Prelude.{◌≡◌, ◌+◌, ◌≤◌, ℕ};
ghost use Rattle.libfunc_registry.specs.Fam.{results_of};
ghost use Rattle.gas_solver.specs.Accepting.{AcceptedView, IsAccepted};
ghost use Rattle.gas_solver.specs.Balance.{builtins};
ghost use Rattle.typed_values.specs.Inputs.{InputView};
ghost use Rattle.typed_values.specs.Outcome.{OutcomeView};
ghost use Rattle.sierra_meaning.specs.Main.{statement_bound};
ghost use Rattle.sierra_meaning.specs.Outcome.{Fits, Means, MeansWithin};

use gas_solver::plan_pays;

/// An accepted program has a meaning on each input that fits main and has the gas to begin, after no more statements than one
/// more than there are, times one more than the gas.
pub fn every_meaning_ends()
    ensures { (a : AcceptedView) → IsAccepted a → (i : InputView) → Fits a i → a.plan.entry ≤ i.gas →
        (outcome : OutcomeView) × MeansWithin a i (statement_bound a i.gas) outcome }
{
    plan_pays();
}

/// A program means at most one outcome on an input, after one number of statements.
pub fn one_meaning()
    ensures { (a : AcceptedView) (i : InputView) (n m : ℕ) (one other : OutcomeView) → Means a i n one → Means a i m other →
        (n ≡ m) × (one ≡ other) }
{}

/// So no meaning takes more statements than that.
pub fn meanings_within_bound()
    ensures { (a : AcceptedView) → IsAccepted a → (i : InputView) → Fits a i → (n : ℕ) (outcome : OutcomeView) → Means a i n outcome →
        n ≤ statement_bound a i.gas }
{
    plan_pays();
}

/// The gas that is left and the gas that is used are the input's, and main's return at least is used. Where main gives no gas
/// builtin, what it needs to begin is used.
pub fn gas_is_told()
    ensures all { (a : AcceptedView) → IsAccepted a → (i : InputView) → Fits a i → (n : ℕ) (outcome : OutcomeView) → Means a i n outcome →
        outcome.gas_left + outcome.gas_used ≡ i.gas }
    ensures used { (a : AcceptedView) → IsAccepted a → (i : InputView) → Fits a i → (n : ℕ) (outcome : OutcomeView) → Means a i n outcome →
        100 ≤ outcome.gas_used }
    ensures without { (a : AcceptedView) → IsAccepted a → (i : InputView) → Fits a i → (n : ℕ) (outcome : OutcomeView) → Means a i n outcome →
        builtins 0 1 (results_of a.types a.main) ≡ 0 → outcome.gas_used ≡ a.plan.entry }
{
    plan_pays();
}
