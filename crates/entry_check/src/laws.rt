//! Laws of entries. A law is a function without code, whose contract says what holds.

ghost use Rattle.std.specs.Prelude.{◌≡◌, ◌⊎◌, ℕ, Ok, Err};
ghost use Rattle.sierra_types.specs.declared.program.Program.{Program};
ghost use Rattle.type_table.specs.View.{TypesView};
ghost use Rattle.entry_check.specs.declared.fault.EntryFault.{EntryFault};
ghost use Rattle.entry_check.specs.Entry.{entry_of};

/// A program has an entry or a fault, and by what these are not both and only one.
pub fn entry_or_fault()
    ensures { (p : Program) (t : TypesView) → ((main : ℕ) × (entry_of p t ≡ Ok main)) ⊎ ((fault : EntryFault) × (entry_of p t ≡ Err fault)) }
{}
