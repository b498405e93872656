//! Laws for the callers of the search. A law is a function without code, whose contract says what holds.

ghost use Rattle.std.specs.Prelude.{ℕ, ◌<◌, List, [], ◌∷◌, ◌++◌, length, slice_index};
ghost use Rattle.std.specs.List.{Contains};
ghost use Rattle.graph_cycles.specs.Graph.{Leads, LeadsBelow, OnCycle};
ghost use Rattle.graph_cycles.specs.Cycles.{IsBefore, TargetsFirst};

/// Where targets come first, all targets of a node that is on no cycle come before the node.
pub fn targets_before()
    ensures { (g : List (List ℕ)) (order : List ℕ) → TargetsFirst g order → (i t : ℕ) → i < length order → ¬ OnCycle g (slice_index order i) → Leads g (slice_index order i) t → IsBefore order i t }
{}

/// Targets stay below a bound as a node is added with targets below it.
pub fn adding_below()
    ensures { (n : ℕ) (g : List (List ℕ)) (targets : List ℕ) → LeadsBelow n g → ((t : ℕ) → Contains targets t → t < n) → LeadsBelow n (g ++ targets ∷ []) }
{}
