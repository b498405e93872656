//! Laws of what main gives. A law is a function without code, whose contract says what holds.

ghost use Rattle.std.specs.Prelude.{◌≡◌, ◌+◌, ◌≤◌, ℕ, List};
ghost use Rattle.std.specs.List.{sum_by};
ghost use Rattle.libfunc_registry.specs.Fam.{params_of, results_of};
ghost use Rattle.gas_solver.specs.Accepting.{AcceptedView, IsAccepted};
ghost use Rattle.gas_solver.specs.Balance.{builtins};
ghost use Rattle.value_trees.specs.Val.{Plain};
ghost use Rattle.sierra_meaning.specs.Acts.{begins_at};
ghost use Rattle.sierra_meaning.specs.Mean.{charged};
ghost use Rattle.sierra_meaning.specs.Measured.{gas_inside};
ghost use Rattle.sierra_meaning.specs.Main.{AreMainResults, IsBeginning, MainEnds, statement_bound};

use gas_solver::{builtins_balance, plan_pays};

/// From all that it can begin with main of an accepted program ends.
pub fn main_ends()
    ensures { (a : AcceptedView) → IsAccepted a → (gas : ℕ) (vs : List Plain) → IsBeginning a gas vs → (n : ℕ) × (results : List Plain) × MainEnds a n vs results }
{
    plan_pays();
}

/// It ends in one way, after one number of statements.
pub fn one_run()
    ensures { (a : AcceptedView) (n m : ℕ) (vs one other : List Plain) → MainEnds a n vs one → MainEnds a m vs other → (n ≡ m) × (one ≡ other) }
{}

/// Its results are of their types, the gas in them was not used, the gas bounds the number of statements, and what they are
/// charged is paid by the gas.
pub fn results_are_known()
    ensures results { (a : AcceptedView) → IsAccepted a → (gas n : ℕ) (vs results : List Plain) → IsBeginning a gas vs → MainEnds a n vs results →
        AreMainResults a gas results }
    ensures statements { (a : AcceptedView) → IsAccepted a → (gas n : ℕ) (vs results : List Plain) → IsBeginning a gas vs → MainEnds a n vs results →
        n ≤ statement_bound a gas }
    ensures charges { (a : AcceptedView) → IsAccepted a → (gas n : ℕ) (vs results : List Plain) → IsBeginning a gas vs → (run : MainEnds a n vs results) →
        charged n (begins_at a a.main) run.held results run.ends + sum_by gas_inside results + 100 ≤ gas }
{
    plan_pays();
}

/// Main gives as many builtins of each kind as it takes.
pub fn builtins_are_given_back()
    ensures { (a : AcceptedView) → IsAccepted a → (check gas : ℕ) →
        builtins check gas (params_of a.types a.main) ≡ builtins check gas (results_of a.types a.main) }
{
    builtins_balance();
}
