//! Laws of the checks. A law is a function without code, whose contract says what holds.

ghost use Rattle.std.specs.Prelude.{◌≡◌, ◌≤◌, ◌^◌, length};
ghost use Rattle.gas_solver.specs.Accepting.{AcceptedView, IsAccepted};
ghost use Rattle.gas_solver.specs.Plans.{PlanView};
ghost use Rattle.sierra_types.specs.declared.program.Program.{Program};
ghost use Rattle.program_checks.specs.declared.refusal.Refusal.{Refusal};
ghost use Rattle.program_checks.specs.Checks.{Passes, HasPlan, Refused};

/// A program is refused for one reason.
pub fn one_refusal()
    ensures { (program : Program) (a b : Refusal) → Refused program a → Refused program b → a ≡ b }
{}

/// A program that passes the checks has one gas plan.
pub fn one_gas_plan()
    ensures { (program : Program) (a b : PlanView) → HasPlan program a → HasPlan program b → a ≡ b }
{}

/// What is found of an accepted program is one.
pub fn one_accepted()
    ensures { (a b : AcceptedView) → IsAccepted a → IsAccepted b → a.program ≡ b.program → a ≡ b }
{}

/// It cannot be that a program of at most `2^20` statements neither passes the checks nor is refused, and no program does
/// both.
pub fn passes_or_refused()
    ensures either { (program : Program) → length program.statements ≤ 2 ^ 20 → (Passes program → ⊥) → ((refusal : Refusal) → Refused program refusal → ⊥) → ⊥ }
    ensures not_both { (program : Program) (refusal : Refusal) → Refused program refusal → Passes program → ⊥ }
{}
