//! Laws of values in cells. A law is a function without code, whose contract says what holds.

ghost use Rattle.std.specs.Prelude.{◌≡◌, ◌↔◌, ℕ, Option, List, ◌++◌, take, drop, length, true};
ghost use Rattle.std.specs.List.{sum_by};
ghost use Rattle.ro_machine.specs.Extends.{Extends};
ghost use Rattle.ro_machine.specs.Memory.{IsMemory};
ghost use Rattle.ro_machine.specs.Readings.{Readings};
ghost use Rattle.type_trees.specs.Ty.{Ty, size, snap, is_plain};
ghost use Rattle.value_trees.specs.Logs.{Logged};
ghost use Rattle.value_trees.specs.Of.{IsPlain};
ghost use Rattle.value_trees.specs.Val.{Plain};
ghost use Rattle.cell_forms.specs.Growing.{KeepEach};
ghost use Rattle.cell_forms.specs.Standing.{Padding, any, LoggedStands, AllLoggedStand, PlainStands, AllPlainStand, HasCountedArrays};

/// What stands takes as many cells as its type has.
pub fn standing_takes_its_cells()
    ensures plain { (padding : Padding) (m : ℕ → Option ℕ) (ty : Ty) (cells : Readings) (v : Plain) → PlainStands padding m ty cells v → length cells ≡ size ty }
    ensures logged { (padding : Padding) (m : ℕ → Option ℕ) (ty : Ty) (cells : Readings) (v : Logged) → LoggedStands padding m ty cells v → length cells ≡ size ty }
{}

/// What stands in a memory stands in each larger one, and in readings that keep what was read.
pub fn standing_lasts()
    ensures plain { (padding : Padding) (m more : ℕ → Option ℕ) (ty : Ty) (cells grown : Readings) (v : Plain) → Extends m more → KeepEach cells grown → PlainStands padding m ty cells v → PlainStands padding more ty grown v }
    ensures logged { (padding : Padding) (m more : ℕ → Option ℕ) (ty : Ty) (cells grown : Readings) (v : Logged) → Extends m more → KeepEach cells grown → LoggedStands padding m ty cells v → LoggedStands padding more ty grown v }
{}

/// What stands with its padding as asked stands with any padding.
pub fn padding_is_free()
    ensures plain { (padding : Padding) (m : ℕ → Option ℕ) (ty : Ty) (cells : Readings) (v : Plain) → PlainStands padding m ty cells v → PlainStands any m ty cells v }
    ensures logged { (padding : Padding) (m : ℕ → Option ℕ) (ty : Ty) (cells : Readings) (v : Logged) → LoggedStands padding m ty cells v → LoggedStands any m ty cells v }
{}

/// Values that stand in some cells, and values that stand in further cells, stand in all of them, and such values fall apart so.
pub fn standing_side_by_side()
    ensures together { (padding : Padding) (m : ℕ → Option ℕ) (ts us : List Ty) (cells more : Readings) (vs ws : List Logged) →
        AllLoggedStand padding m ts cells vs → AllLoggedStand padding m us more ws → AllLoggedStand padding m (ts ++ us) (cells ++ more) (vs ++ ws) }
    ensures apart { (padding : Padding) (m : ℕ → Option ℕ) (ts us : List Ty) (cells : Readings) (xs : List Logged) →
        AllLoggedStand padding m (ts ++ us) cells xs →
        (vs ws : List Logged) × (xs ≡ vs ++ ws) × AllLoggedStand padding m ts (take (sum_by size ts) cells) vs × AllLoggedStand padding m us (drop (sum_by size ts) cells) ws }
{}

/// A snapshot stands as its type.
pub fn snapshots_stand_alike()
    ensures plain { (padding : Padding) (m : ℕ → Option ℕ) (ty : Ty) (cells : Readings) (v : Plain) → PlainStands padding m (snap ty) cells v ↔ PlainStands padding m ty cells v }
    ensures logged { (padding : Padding) (m : ℕ → Option ℕ) (ty : Ty) (cells : Readings) (v : Logged) → LoggedStands padding m (snap ty) cells v ↔ LoggedStands padding m ty cells v }
{}

/// At most one value of a plain type stands in some cells.
pub fn one_value_stands()
    ensures { (padding : Padding) (m : ℕ → Option ℕ) (ty : Ty) (cells : Readings) (v w : Plain) →
        is_plain ty ≡ true → HasCountedArrays ty → PlainStands padding m ty cells v → PlainStands padding m ty cells w → v ≡ w }
{}

/// What stands in cells of a type is of the type.
pub fn what_stands_is_of_its_type()
    ensures { (padding : Padding) (m : ℕ → Option ℕ) (ty : Ty) (cells : Readings) (v : Plain) → IsMemory m → PlainStands padding m ty cells v → IsPlain ty v }
{}
