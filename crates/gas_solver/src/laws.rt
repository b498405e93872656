//! Laws of gas plans. A law is a function without code, whose contract says what holds.

ghost use Rattle.std.specs.Prelude.{◌≡◌, ◌↔◌, ◌<◌, ℕ, List, length, slice_index};
ghost use Rattle.graph_cycles.specs.Graph.{IsClosed, Leads, OnCycle};
ghost use Rattle.sierra_types.specs.declared.program.Program.{Program};
ghost use Rattle.type_table.specs.View.{TypesView};
ghost use Rattle.type_table.specs.Table.{HasTypes};
ghost use Rattle.libfunc_registry.specs.Signature.{HasSignatures};
ghost use Rattle.libfunc_registry.specs.declared.sig.Sig.{Sig};
ghost use Rattle.linear_check.specs.Typed.{Typed, TypedList};
ghost use Rattle.least_needs.specs.Needs.{AreNeeds, Meets};
ghost use Rattle.least_needs.specs.Terms.{FreeLeadOn, graph_of};
ghost use Rattle.gas_solver.specs.Balance.{IsBalanced, HasBalancedFunctions};
ghost use Rattle.gas_solver.specs.declared.fault.GasFault.{GasFault};
ghost use Rattle.gas_solver.specs.Edges.{StatementLeads};
ghost use Rattle.gas_solver.specs.Equations.{MeetEquations};
ghost use Rattle.gas_solver.specs.Faults.{IsGasFault};
ghost use Rattle.gas_solver.specs.Paying.{Pays};
ghost use Rattle.gas_solver.specs.Plans.{PlanView, IsPlan, amount_in};
ghost use Rattle.gas_solver.specs.Printing.{HasWords, plan_text};
ghost use Rattle.gas_solver.specs.Terms.{program_terms};

/// A program has at most one plan.
pub fn one_plan()
    ensures { (p : Program) (t : TypesView) (sigs : List Sig) (main : ℕ) (plan other : PlanView) →
        IsPlan p t sigs main plan → IsPlan p t sigs main other → plan ≡ other }
{}

/// A program has at most one fault.
pub fn one_fault()
    ensures { (p : Program) (t : TypesView) (sigs : List Sig) (main : ℕ) (x y : GasFault) →
        IsGasFault p t sigs main x → IsGasFault p t sigs main y → x ≡ y }
{}

/// A program that has a plan has no fault.
pub fn never_both()
    ensures { (p : Program) (t : TypesView) (sigs : List Sig) (main : ℕ) (plan : PlanView) (fault : GasFault) →
        IsPlan p t sigs main plan → IsGasFault p t sigs main fault → ⊥ }
{}

/// It cannot be that a typed program has neither a plan nor a fault.
pub fn plan_or_fault()
    ensures { (p : Program) (t : TypesView) (sigs : List Sig) (a : TypedList) (main : ℕ) → HasTypes p t → HasSignatures t p.libfuncs sigs →
        Typed p t sigs a → main < length p.functions → ((plan : PlanView) → IsPlan p t sigs main plan → ⊥) →
        ((fault : GasFault) → IsGasFault p t sigs main fault → ⊥) → ⊥ }
{}

/// Numbers meet the equations of a program's terms if and only if each is the greatest of what its statement's branches come
/// to, and a return's is 100.
pub fn equations()
    ensures { (p : Program) (t : TypesView) (sigs : List Sig) (need : ℕ → ℕ) →
        Meets (program_terms p t sigs) need ↔ MeetEquations p t sigs need }
{}

/// A statement leads, by the terms of its need, where it leads other than by the success branch of `withdraw_gas`.
pub fn edges_are_branches()
    ensures { (p : Program) (t : TypesView) (sigs : List Sig) (s u : ℕ) →
        Leads (graph_of (program_terms p t sigs)) s u ↔ StatementLeads p sigs s u }
{}

/// In a typed program each statement leads to statements by its terms, and what is free leads to later ones.
pub fn terms_fit()
    ensures closed { (p : Program) (t : TypesView) (sigs : List Sig) (a : TypedList) → HasTypes p t → HasSignatures t p.libfuncs sigs →
        Typed p t sigs a → IsClosed (graph_of (program_terms p t sigs)) }
    ensures free { (p : Program) (t : TypesView) (sigs : List Sig) (a : TypedList) → HasTypes p t → HasSignatures t p.libfuncs sigs →
        Typed p t sigs a → FreeLeadOn (program_terms p t sigs) }
{}

/// A typed program has needs if and only if no statement leads back to itself without the success branch of a
/// `withdraw_gas`.
pub fn needs_exist()
    ensures { (p : Program) (t : TypesView) (sigs : List Sig) (a : TypedList) → HasTypes p t → HasSignatures t p.libfuncs sigs →
        Typed p t sigs a →
        ((need : ℕ → ℕ) × AreNeeds (program_terms p t sigs) need) ↔ ((s : ℕ) → ¬ OnCycle (graph_of (program_terms p t sigs)) s) }
{}

/// By a plan each statement's need pays for its branches.
pub fn plan_pays()
    ensures { (p : Program) (t : TypesView) (sigs : List Sig) (a : TypedList) (main : ℕ) (plan : PlanView) → HasTypes p t →
        HasSignatures t p.libfuncs sigs → Typed p t sigs a → IsPlan p t sigs main plan →
        Pays p t sigs (amount_in plan) (slice_index plan.need) }
{}

/// In a typed program that has a plan, as many range checks and as many gas builtins are held at each statement as its
/// function returns. So a function takes as many as it gives.
pub fn builtins_balance()
    ensures statements { (p : Program) (t : TypesView) (sigs : List Sig) (a : TypedList) (main : ℕ) (plan : PlanView) → HasTypes p t →
        HasSignatures t p.libfuncs sigs → Typed p t sigs a → IsPlan p t sigs main plan → IsBalanced t a }
    ensures functions { (p : Program) (t : TypesView) (sigs : List Sig) (a : TypedList) (main : ℕ) (plan : PlanView) → HasTypes p t →
        HasSignatures t p.libfuncs sigs → Typed p t sigs a → IsPlan p t sigs main plan → HasBalancedFunctions t }
{}

/// The text of a plan is that of no other one.
pub fn one_text()
    ensures { (plan other : PlanView) → HasWords plan → HasWords other → plan_text plan ≡ plan_text other → plan ≡ other }
{}
