//! Laws of walks. A law is a function without code, whose contract says what holds.

ghost use Rattle.std.specs.Prelude.{◌≡◌, ◌↔◌, ℕ, List, Result, Ok, Err};
ghost use Rattle.statement_walk.specs.Rules.{Rules, Lawful};
ghost use Rattle.statement_walk.specs.Annotates.{Annotates};
ghost use Rattle.statement_walk.specs.Keeps.{SameShape, IsOwn};
ghost use Rattle.statement_walk.specs.Walk.{Stops};

/// A walk stops, and in one way only.
pub fn stops_once<E, F>()
    ensures some { (r : Rules E F) → Lawful r → (x : Result (List (ℕ × E)) F) × Stops r x }
    ensures one { (r : Rules E F) → Lawful r → (x y : Result (List (ℕ × E)) F) → Stops r x → Stops r y → x ≡ y }
{}

/// A list fits the rules if and only if their walk stops with it.
pub fn walk_gives_the_list<E, F>()
    ensures { (r : Rules E F) → Lawful r → (a : List (ℕ × E)) → Annotates r a ↔ Stops r (Ok a) }
{}

/// At most one list fits the rules.
pub fn one_list<E, F>()
    ensures { (r : Rules E F) → Lawful r → (a b : List (ℕ × E)) → Annotates r a → Annotates r b → a ≡ b }
{}

/// Where a list fits some rules, other rules of the same shape fail by a statement's own faults alone: never for where a
/// function begins, for a shared statement or for one that isn't reached.
pub fn same_shape_fails_by_its_own<E, F, D, G>()
    ensures { (r : Rules E F) (q : Rules D G) → Lawful r → Lawful q → SameShape r q → (a : List (ℕ × E)) → Annotates r a → (x : G) → Stops q (Err x) → IsOwn q x }
{}
