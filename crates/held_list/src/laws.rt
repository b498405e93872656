//! Laws of lists of held variables. A law is a function without code, whose contract says what holds.

ghost use Rattle.std.specs.Prelude.{◌≡◌, ◌↔◌, ℕ, Some, None};
ghost use Rattle.held_list.specs.Held.{Held, IsRising};
ghost use Rattle.held_list.specs.Difference.{DecidesEquality, IsLeastDifference};
ghost use Rattle.held_list.specs.Editing.{differ};

/// No variable differs if and only if the two lists are equal, where `==` of payloads is equality.
pub fn differ_equal<A: PartialEq>()
    ensures { DecidesEquality A.eq → (x y : Held A) → (differ A.eq x y ≡ None) ↔ (x ≡ y) }
{}

/// The variable that differs is the least whose payload, looked up, differs.
pub fn differ_least<A: PartialEq>()
    ensures { DecidesEquality A.eq → (x y : Held A) (v : ℕ) → IsRising x → IsRising y → differ A.eq x y ≡ Some v → IsLeastDifference x y v }
{}
