//! Laws of places. A law is a function without code, whose contract says what holds.

ghost use Rattle.std.specs.Prelude.{◌≡◌, ◌↔◌, ◌⊎◌, ◌<◌, ◌^◌, ℕ, List, Ok, Some, length};
ghost use Rattle.sierra_types.specs.declared.program.Program.{Program};
ghost use Rattle.type_table.specs.View.{TypesView};
ghost use Rattle.libfunc_registry.specs.declared.sig.Sig.{Sig};
ghost use Rattle.libfunc_registry.specs.Fam.{fam_of};
ghost use Rattle.cost_table.specs.Fits.{Fit, IsLocalInCells};
ghost use Rattle.linear_check.specs.Typed.{TypedList};
ghost use Rattle.statement_walk.specs.Annotates.{Annotates};
ghost use Rattle.statement_walk.specs.Rules.{Lawful};
ghost use Rattle.statement_walk.specs.Walk.{Stops};
ghost use Rattle.ap_refs.specs.declared.fault.RefFault.{RefFault};
ghost use Rattle.ap_refs.specs.declared.fault.RefFault.TheVariants.{Memory};
ghost use Rattle.ap_refs.specs.declared.place.Place.{Place};
ghost use Rattle.ap_refs.specs.declared.place.Locals.{Locals};
ghost use Rattle.ap_refs.specs.Arguments.{taken, joined};
ghost use Rattle.ap_refs.specs.Locals.{local_step};
ghost use Rattle.ap_refs.specs.Placed.{Placed, PlacedList, IsAlike};
ghost use Rattle.ap_refs.specs.Sized.{AreSized, IsStep};
ghost use Rattle.ap_refs.specs.Prepared.{IsTypedProgram};
ghost use Rattle.ap_refs.specs.FirstFault.{FirstFault};
ghost use Rattle.ap_refs.specs.Flow.{rules};

/// A typed program has places, or its walk has a first fault.
pub fn placed_or_fault()
    ensures { (p : Program) (t : TypesView) (sigs : List Sig) (envs : TypedList) → IsTypedProgram p t sigs envs →
        ((a : PlacedList) × Placed p t sigs a) ⊎ ((fault : RefFault) × FirstFault p t sigs fault) }
{}

/// A typed program that has places has no first fault.
pub fn never_both()
    ensures { (p : Program) (t : TypesView) (sigs : List Sig) (envs : TypedList) → IsTypedProgram p t sigs envs → (a : PlacedList) (fault : RefFault) →
        Placed p t sigs a → FirstFault p t sigs fault → ⊥ }
{}

/// A typed program has places in one way at most.
pub fn one_list()
    ensures { (p : Program) (t : TypesView) (sigs : List Sig) (envs : TypedList) → IsTypedProgram p t sigs envs → (a b : PlacedList) →
        Placed p t sigs a → Placed p t sigs b → a ≡ b }
{}

/// A program has at most one first fault.
pub fn one_fault()
    ensures { (p : Program) (t : TypesView) (sigs : List Sig) (x y : RefFault) →
        FirstFault p t sigs x → FirstFault p t sigs y → x ≡ y }
{}

/// Out of memory is no first fault of a typed program. So its walk never stops for where a function begins, for a shared
/// statement or for one that isn't reached.
pub fn never_memory()
    ensures { (p : Program) (t : TypesView) (sigs : List Sig) (envs : TypedList) → IsTypedProgram p t sigs envs → ¬ FirstFault p t sigs Memory }
{}

/// Of a typed program the rules of the walk fit together, and a list fits them if and only if it gives places. So the walk is
/// through with this list.
pub fn placed_by_the_rules()
    ensures lawful { (p : Program) (t : TypesView) (sigs : List Sig) (envs : TypedList) → IsTypedProgram p t sigs envs → Lawful (rules p t sigs) }
    ensures fits { (p : Program) (t : TypesView) (sigs : List Sig) (envs : TypedList) → IsTypedProgram p t sigs envs → (a : PlacedList) →
        Placed p t sigs a ↔ Annotates (rules p t sigs) a }
    ensures through { (p : Program) (t : TypesView) (sigs : List Sig) (envs : TypedList) → IsTypedProgram p t sigs envs → (a : PlacedList) →
        Placed p t sigs a ↔ Stops (rules p t sigs) (Ok a) }
{}

/// At each statement of a typed program the places hold the variables that the linear check gives.
pub fn same_variables()
    ensures { (p : Program) (t : TypesView) (sigs : List Sig) (envs : TypedList) → IsTypedProgram p t sigs envs → (a : PlacedList) → Placed p t sigs a →
        (s : ℕ) → s < length p.statements → IsAlike envs a s }
{}

/// At each statement of a typed program that has places, a variable has as many cells as its type's size says, and numbers
/// among them are below the field's order.
pub fn cells_of_types()
    ensures { (p : Program) (t : TypesView) (sigs : List Sig) (envs : TypedList) → IsTypedProgram p t sigs envs → (a : PlacedList) → Placed p t sigs a →
        (s : ℕ) → s < length p.statements → AreSized t envs a s }
{}

/// The cells of the arguments of a libfunc's statement fit the libfunc's signature: they are as many as the arguments' sizes
/// say, of the marked forms, close, and with numbers below the field's order. Of the local that `store_local` takes it is a
/// premise that its cells are cells.
pub fn arguments_fit()
    ensures { (p : Program) (t : TypesView) (sigs : List Sig) (envs : TypedList) → IsTypedProgram p t sigs envs → (a : PlacedList) → Placed p t sigs a →
        (s : ℕ) (args : List ℕ) (sig : Sig) (place : Place) → IsStep p sigs a s args sig place → IsLocalInCells (fam_of t sig.libfunc) (joined (taken args place.cells).0) →
        Fit (fam_of t sig.libfunc) (joined (taken args place.cells).0) }
{}

/// The amount of a libfunc's statement is below `2^40`: that of `alloc_local`, the offset of its local from fp, and that of
/// `finalize_locals`, the number of cells of the locals. Of each other it is 0.
pub fn amounts_are_few()
    ensures { (p : Program) (t : TypesView) (sigs : List Sig) (envs : TypedList) → IsTypedProgram p t sigs envs → (a : PlacedList) → Placed p t sigs a →
        (s : ℕ) (args : List ℕ) (sig : Sig) (place : Place) → IsStep p sigs a s args sig place → (locals : Locals) (amount : ℕ) →
        local_step t sig.libfunc place.ap place.locals ≡ Some (locals, amount) → amount < 2 ^ 40 }
{}
