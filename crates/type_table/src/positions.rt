//! Names, each with a position.

ghost use Rattle.std.specs.Prelude.{◌≡◌, ◌++◌, ◌∷◌, [], OnOk, OnErr, IfOk, None};
ghost use Rattle.type_table.specs.Lookups.{found};

use indexmap::IndexMap;
use std::alloc::{AllocError, Global};
use std::marker::Model;

/// Names, each with the position that it stands for. A look-up takes constant time and no memory.
#[derive(Debug, Drop)]
pub struct Positions {
    map: IndexMap<Vec<u8>, usize>,
}

impl Model for Positions {
    ghost use Rattle.std.specs.Prelude.{List, ℕ, map as mapped};

    ghost Value = { List (List ℕ × ℕ) };

    ghost view = { λ positions. mapped (λ e. (e.0.items, e.1)) positions.map.entries };
}

impl Positions {
    /// No names. It takes no memory; `add` takes its from `alloc`.
    pub(crate) fn new(alloc: Global) -> Positions
        ensures { result ≡ [] }
    {
        Positions {
            map: IndexMap::new(alloc),
        }
    }

    /// The position of a name.
    pub fn find(&self, name: &[u8]) -> Option<usize>
        ensures { result ≡ found self.now name.now }
    {
        self.map.get(name).copied()
    }

    /// Adds a name that isn't there yet.
    pub(crate) fn add(
        &mut self,
        alloc: Global,
        name: &[u8],
        position: usize,
    ) -> Result<(), AllocError>
        requires { found self.old name.now ≡ None }
        ensures ok { OnOk result (self.new ≡ self.old ++ (name.now, position) ∷ []) }
        ensures err { OnErr result (self.new ≡ self.old) }
    {
        let own = Vec::from_slice(alloc, name)?;
        match self.map.insert(own, position) {
            Ok(_) => Ok(()),
            Err(_) => Err(AllocError),
        }
    }
}
