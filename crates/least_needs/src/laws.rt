//! Laws of needs. A law is a function without code, whose contract says what holds.

ghost use Rattle.std.specs.Prelude.{◌≡◌, ℕ, ◌<◌, ◌≤◌, List, [], ◌∷◌, ◌++◌, length};
ghost use Rattle.std.specs.List.{Contains};
ghost use Rattle.graph_cycles.specs.Graph.{IsClosed, Leads, LeadsBelow, OnCycle};
ghost use Rattle.least_needs.specs.declared.terms.Term.{Term};
ghost use Rattle.least_needs.specs.Terms.{AreBelow, FreeLeadOn, all_targets, graph_of, listed, terms_of};
ghost use Rattle.least_needs.specs.Needs.{amount, AreNeeds, AtLeast, Meets, rank};
ghost use Rattle.least_needs.specs.Cycles.{IsCycle, IsLeastOnCycle};
ghost use Rattle.least_needs.specs.Answers.{AreSmallNeeds, IsTooLarge};

/// Targets stay below a bound as a statement is added whose targets are below it.
pub fn adding_below()
    ensures { (n : ℕ) (terms : List (List Term)) (added : List Term) → LeadsBelow n (graph_of terms) → AreBelow n (all_targets added) → LeadsBelow n (graph_of (terms ++ added ∷ [])) }
{}

/// Terms that cost nothing still lead to later statements alone as a statement is added of which this holds.
pub fn adding_free()
    ensures { (terms : List (List Term)) (added : List Term) → FreeLeadOn terms → ((x : Term) (t : ℕ) → Contains added x → x.cost ≡ 0 → Contains (listed x.targets) t → length terms < t) → FreeLeadOn (terms ++ added ∷ []) }
{}

/// By numbers that are large enough no term of a statement comes to more than its number; those that meet the equations
/// are large enough.
pub fn terms_are_paid()
    ensures paid { (terms : List (List Term)) (need : ℕ → ℕ) → AtLeast terms need → (s : ℕ) (x : Term) → s < length terms → Contains (terms_of terms s) x → amount need x ≤ need s }
    ensures enough { (terms : List (List Term)) (need : ℕ → ℕ) → Meets terms need → AtLeast terms need }
{}

/// Where no statement is on a cycle, there are least needs.
pub fn exist_without_cycles()
    ensures { (terms : List (List Term)) → IsClosed (graph_of terms) → ((s : ℕ) → ¬ OnCycle (graph_of terms) s) → (need : ℕ → ℕ) × AreNeeds terms need }
{}

/// Where a term that costs nothing leads to later statements alone, no numbers are large enough for a statement on a cycle.
pub fn none_on_a_cycle()
    ensures { (terms : List (List Term)) → IsClosed (graph_of terms) → FreeLeadOn terms → (need : ℕ → ℕ) → AtLeast terms need → (s : ℕ) → ¬ OnCycle (graph_of terms) s }
{}

/// Where a term that costs nothing leads to later statements alone, a number falls from a statement to each of its targets.
pub fn rank_falls()
    ensures { (terms : List (List Term)) → IsClosed (graph_of terms) → FreeLeadOn terms → (need : ℕ → ℕ) → AtLeast terms need → (s t : ℕ) → Leads (graph_of terms) s t → rank terms need t < rank terms need s }
{}

/// Where a term that costs nothing leads to later statements alone, any numbers that meet the equations are the least ones.
pub fn meeting_is_least()
    ensures { (terms : List (List Term)) → IsClosed (graph_of terms) → FreeLeadOn terms → (need : ℕ → ℕ) → Meets terms need → AreNeeds terms need }
{}

/// The least needs are unique.
pub fn one_system()
    ensures each { (terms : List (List Term)) (need other : ℕ → ℕ) → AreNeeds terms need → AreNeeds terms other → (s : ℕ) → s < length terms → need s ≡ other s }
    ensures list { (terms : List (List Term)) (needs others : List ℕ) → AreSmallNeeds terms needs → AreSmallNeeds terms others → needs ≡ others }
{}

/// At most one list names the cycle.
pub fn one_cycle()
    ensures { (g : List (List ℕ)) (nodes others : List ℕ) → IsCycle g nodes → IsCycle g others → nodes ≡ others }
{}

/// At most one statement is the first that needs too much.
pub fn one_statement()
    ensures { (terms : List (List Term)) (s t : ℕ) → IsTooLarge terms s → IsTooLarge terms t → s ≡ t }
{}

/// Of needs that are small enough, one that is too large and a cycle, no two are right at once.
pub fn never_two()
    ensures small { (terms : List (List Term)) (needs : List ℕ) (s : ℕ) → AreSmallNeeds terms needs → ¬ IsTooLarge terms s }
    ensures small_cycle { (terms : List (List Term)) (needs nodes : List ℕ) → AreSmallNeeds terms needs → ¬ IsCycle (graph_of terms) nodes }
    ensures large_cycle { (terms : List (List Term)) (s : ℕ) (nodes : List ℕ) → IsTooLarge terms s → ¬ IsCycle (graph_of terms) nodes }
{}

/// It cannot be that no list names the cycle where some node is the least on one.
pub fn a_cycle_is_named()
    ensures { (g : List (List ℕ)) (start : ℕ) → IsLeastOnCycle g start → ((nodes : List ℕ) → IsCycle g nodes → ⊥) → ⊥ }
{}

/// It cannot be that there are no needs that are small enough, no first statement that needs too much and no cycle.
pub fn needs_or_fault()
    ensures { (terms : List (List Term)) → IsClosed (graph_of terms) → ((needs : List ℕ) → AreSmallNeeds terms needs → ⊥) →
        ((s : ℕ) → IsTooLarge terms s → ⊥) → ((nodes : List ℕ) → IsCycle (graph_of terms) nodes → ⊥) → ⊥ }
{}
