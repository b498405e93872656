//! Laws of linear typing. A law is a function without code, whose contract says what holds.

ghost use Rattle.std.specs.Prelude.{◌≡◌, ◌↔◌, ◌≤◌, ◌⊎◌, ℕ, List, Ok, Some, length, slice_get};
ghost use Rattle.sierra_types.specs.declared.program.Program.{Program};
ghost use Rattle.sierra_types.specs.declared.program.Branch.{Branch};
ghost use Rattle.type_table.specs.View.{TypesView};
ghost use Rattle.type_table.specs.Table.{HasTypes};
ghost use Rattle.type_table.specs.declared.type_id.TypeId.{TypeId};
ghost use Rattle.libfunc_registry.specs.Signature.{HasSignatures};
ghost use Rattle.libfunc_registry.specs.declared.sig.Sig.{Sig};
ghost use Rattle.held_list.specs.Held.{Held};
ghost use Rattle.statement_walk.specs.Annotates.{Annotates};
ghost use Rattle.statement_walk.specs.Rules.{Lawful};
ghost use Rattle.statement_walk.specs.Walk.{Stops};
ghost use Rattle.linear_check.specs.declared.fault.LinearFault.{LinearFault};
ghost use Rattle.linear_check.specs.declared.fault.LinearFault.TheVariants.{Memory};
ghost use Rattle.linear_check.specs.Statements.{targets_of};
ghost use Rattle.linear_check.specs.Typed.{Typed, TypedList};
ghost use Rattle.linear_check.specs.FirstFault.{FirstFault};
ghost use Rattle.linear_check.specs.Flow.{rules};
ghost use Rattle.linear_check.specs.Bounded.{AreInTable};
ghost use Rattle.linear_check.specs.Branching.{HasBranches, IsOnlyWayIn};

/// A program whose types pass is typed, or its walk has a first fault.
pub fn typed_or_fault()
    ensures { (p : Program) (t : TypesView) (sigs : List Sig) → HasTypes p t →
        ((a : TypedList) × Typed p t sigs a) ⊎ ((fault : LinearFault) × FirstFault p t sigs fault) }
{}

/// A program that is typed has no first fault.
pub fn never_both()
    ensures { (p : Program) (t : TypesView) (sigs : List Sig) → HasTypes p t → (a : TypedList) (fault : LinearFault) →
        Typed p t sigs a → FirstFault p t sigs fault → ⊥ }
{}

/// A program is typed in one way at most.
pub fn one_list()
    ensures { (p : Program) (t : TypesView) (sigs : List Sig) → HasTypes p t → (a b : TypedList) →
        Typed p t sigs a → Typed p t sigs b → a ≡ b }
{}

/// A program has at most one first fault.
pub fn one_fault()
    ensures { (p : Program) (t : TypesView) (sigs : List Sig) (x y : LinearFault) →
        FirstFault p t sigs x → FirstFault p t sigs y → x ≡ y }
{}

/// Out of memory is no first fault.
pub fn never_memory()
    ensures { (p : Program) (t : TypesView) (sigs : List Sig) → ¬ FirstFault p t sigs Memory }
{}

/// The rules of the walk fit together, and a list fits them if and only if the program is typed with it: if and only if the
/// walk ends with this list.
pub fn typed_by_the_rules()
    ensures lawful { (p : Program) (t : TypesView) (sigs : List Sig) → Lawful (rules p t sigs) }
    ensures fits { (p : Program) (t : TypesView) (sigs : List Sig) → HasTypes p t → (a : TypedList) → Typed p t sigs a ↔ Annotates (rules p t sigs) a }
    ensures through { (p : Program) (t : TypesView) (sigs : List Sig) → HasTypes p t → (a : TypedList) → Typed p t sigs a ↔ Stops (rules p t sigs) (Ok a) }
{}

/// Where a statement of a typed program has two branches or more, each leads to a statement of its own, to which nothing
/// else leads and where no function begins. So it has no more branches than there are statements.
pub fn one_way_in()
    ensures alone { (p : Program) (t : TypesView) (sigs : List Sig) (a : TypedList) → Typed p t sigs a → (s : ℕ) (branches : List Branch) →
        HasBranches p s branches → (k u : ℕ) → slice_get (targets_of s branches) k ≡ Some u → IsOnlyWayIn p s k u }
    ensures few { (p : Program) (t : TypesView) (sigs : List Sig) (a : TypedList) → Typed p t sigs a → (s : ℕ) (branches : List Branch) →
        HasBranches p s branches → length branches ≤ length p.statements }
{}

/// Where the signatures are those of the declared libfuncs, the functions and the held types of a typed program are in its
/// table.
pub fn types_in_table()
    ensures { (p : Program) (t : TypesView) (sigs : List Sig) → HasTypes p t → HasSignatures t p.libfuncs sigs → (a : TypedList) →
        Typed p t sigs a → (s f : ℕ) (held : Held TypeId) → slice_get a s ≡ Some (f, held) → AreInTable t f held }
{}
