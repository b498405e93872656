//! What the linear check gives each statement.

ghost use Rattle.std.specs.Prelude.{◌≡◌, ℕ, ◌<◌, length, Some};
ghost use Rattle.std.specs.List.{slice_get};
ghost use Rattle.held_list.specs.Held.{Held as HeldTypes, IsRising};

use held_list::Held;
use std::marker::Model;
use type_table::TypeId;

/// Each statement's function, and the variables that are held where it begins, with their types.
#[derive(Debug, Drop)]
pub struct Envs {
    list: Vec<(usize, Held<TypeId>)>,
}

impl Model for Envs {
    ghost use Rattle.std.specs.Prelude.{List, ℕ};
    ghost use Rattle.type_table.specs.declared.type_id.TypeId.{TypeId as Id};

    ghost Value = { List (ℕ × List (ℕ × Id)) };

    ghost view = { λ envs. envs.list.items };
}

impl Envs {
    /// Puts a list into this form.
    pub(crate) fn new(list: Vec<(usize, Held<TypeId>)>) -> Envs
        ensures { result ≡ list.items }
    {
        Envs { list }
    }

    /// The function of a statement, by its position. It takes no memory.
    pub fn function_of(&self, s: usize) -> usize
        requires { s < length self.now }
        ensures { (held : HeldTypes _) × (slice_get self.now s ≡ Some (result, held)) }
    {
        self.list[s].0
    }

    /// The variables that are held at a statement, with their types, in rising order. It takes no memory.
    pub fn held(&self, s: usize) -> &[(u64, TypeId)]
        requires { s < length self.now }
        ensures held { (f : ℕ) × (slice_get self.now s ≡ Some (f, result.now)) }
        ensures rising { IsRising result.now }
    {
        self.list[s].1.items()
    }
}
