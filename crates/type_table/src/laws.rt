//! Laws of tables and refusals. A law is a function without code, whose contract says what holds.

ghost use Rattle.std.specs.Prelude.{◌≡◌, ℕ, List, Some, slice_get};
ghost use Rattle.type_trees.specs.Ty.{Ty};
ghost use Rattle.sierra_types.specs.declared.program.Program.{Program};
ghost use Rattle.sierra_types.specs.declared.program.TypeDecl.{TypeDecl};
ghost use Rattle.type_table.specs.declared.fault.TypeFault.{TypeFault};
ghost use Rattle.type_table.specs.declared.fault.TypeFault.TheVariants.{Memory};
ghost use Rattle.type_table.specs.View.{TypesView};
ghost use Rattle.type_table.specs.Table.{HasTypes};
ghost use Rattle.type_table.specs.Generics.{Fits};
ghost use Rattle.type_table.specs.IsType.{HasArgs, IsType};
ghost use Rattle.type_table.specs.Parts.{HasOrdinaryParts};
ghost use Rattle.type_table.specs.Refusals.{FirstFault};
ghost use Rattle.type_table.specs.Reached.{ReachesRefused};

/// A program has a table or a first refusal: it can't have neither.
pub fn types_or_fault()
    ensures { (p : Program) → ((types : TypesView) → ¬ HasTypes p types) → ((fault : TypeFault) → ¬ FirstFault p fault) → ⊥ }
{}

/// A program has at most one first refusal.
pub fn one_fault()
    ensures { (p : Program) (a b : TypeFault) → FirstFault p a → FirstFault p b → a ≡ b }
{}

/// A program that has a table isn't refused.
pub fn never_both()
    ensures { (p : Program) (types : TypesView) (fault : TypeFault) → HasTypes p types → ¬ FirstFault p fault }
{}

/// A program has at most one table.
pub fn one_table()
    ensures { (p : Program) (a b : TypesView) → HasTypes p a → HasTypes p b → a ≡ b }
{}

/// Out of memory is no refusal.
pub fn never_memory()
    ensures { (p : Program) → ¬ FirstFault p Memory }
{}

/// A declaration makes a type, as far as its own arguments go, only if it reaches neither itself nor a refused declaration; and where its
/// arguments have the right form too, it can't be that it makes none. So nothing is asked of a type's size, depth and abilities where it
/// reaches a refused one.
pub fn makes_type()
    ensures made { (ds : List TypeDecl) (ty : Ty) (i : ℕ) (d : TypeDecl) → slice_get ds i ≡ Some d → HasArgs ds ty d → ¬ ReachesRefused ds i }
    ensures reached { (ds : List TypeDecl) (i : ℕ) (d : TypeDecl) → slice_get ds i ≡ Some d → Fits ds d.generic d.args → ¬ ReachesRefused ds i → ((ty : Ty) → ¬ HasArgs ds ty d) → ⊥ }
{}

/// In a box, an array or a snapshot, and as members and variants, there are neither builtins nor uninitialized types; in an uninitialized type
/// there is no other; an enum has a variant or more.
pub fn ordinary_parts()
    ensures { (ds : List TypeDecl) (ty : Ty) (id : List ℕ) → IsType ds ty id → HasOrdinaryParts ty }
{}
