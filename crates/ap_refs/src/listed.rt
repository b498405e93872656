//! What places are given to each statement.

ghost use Rattle.std.specs.Prelude.{◌≡◌, ℕ, ◌<◌, length, Some};
ghost use Rattle.std.specs.List.{slice_get};
ghost use Rattle.held_list.specs.Held.{get};
ghost use Rattle.ap_refs.specs.declared.place.Place.{Place as PlaceOf};

use crate::cells::CellsAt;
use crate::place::Locals;
use crate::stored::Stored;
use std::marker::Model;

/// Each statement's function, and what is known where it begins.
#[derive(Debug, Drop)]
pub struct Places {
    list: Vec<(usize, Stored)>,
}

impl Model for Places {
    ghost use Rattle.std.specs.Prelude.{List, ℕ};
    ghost use Rattle.ap_refs.specs.declared.place.Place.{Place as PlaceOf};

    ghost Value = { List (ℕ × PlaceOf) };

    ghost view = { λ places. places.list.items };
}

impl Places {
    /// Puts a list into this form.
    pub(crate) fn new(list: Vec<(usize, Stored)>) -> Places
        ensures { result ≡ list.items }
    {
        Places { list }
    }

    /// The expressions of a variable's cells at a statement, and none where it isn't held there. It takes no memory.
    pub fn cells(&self, s: usize, v: u64) -> Option<CellsAt<'_>>
        requires { s < length self.now }
        ensures { (f : ℕ) (place : PlaceOf) → slice_get self.now s ≡ Some (f, place) → result ≡ get v place.cells }
    {
        self.list[s].1.cells(v)
    }

    /// How far ap is at a statement from where it was at the function's begin, and none where nobody knows. It takes no memory.
    pub fn ap(&self, s: usize) -> Option<u64>
        requires { s < length self.now }
        ensures { (f : ℕ) (place : PlaceOf) → slice_get self.now s ≡ Some (f, place) → result ≡ place.ap }
    {
        self.list[s].1.ap()
    }

    /// The local state at a statement. It takes no memory.
    pub fn locals(&self, s: usize) -> Locals
        requires { s < length self.now }
        ensures { (f : ℕ) (place : PlaceOf) → slice_get self.now s ≡ Some (f, place) → result ≡ place.locals }
    {
        self.list[s].1.locals()
    }
}
