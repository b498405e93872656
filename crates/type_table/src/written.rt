//! Declarations as they are written, apart from their ids.

ghost use Rattle.std.specs.Prelude.{◌≡◌, ◌++◌, ◌∷◌, [], List, ℕ, not, IfOk, OnOk, OnErr, option_map, if◌then◌else◌};
ghost use Rattle.type_table.specs.Written.{has_written, written_view};

use crate::kind::TypeKind;
use indexmap::IndexSet;
use std::alloc::{AllocError, Global};
use std::marker::Model;

/// What a declaration that fits is written of: which kind of type it is, the name behind `ut@`, and the positions of the
/// types that its arguments name.
#[derive(Debug, PartialEq, Eq, Hash, Drop)]
pub(crate) struct Written {
    /// The kind of type.
    pub kind: TypeKind,
    /// The name behind `ut@`.
    pub user: Option<Vec<u8>>,
    /// The positions of the types that the arguments name.
    pub targets: Vec<usize>,
}

/// Declarations as they are written. A look-up takes the time of the declaration's length.
#[derive(Debug, Drop)]
pub(crate) struct WrittenSet {
    set: IndexSet<Written>,
}

impl Model for WrittenSet {
    ghost use Rattle.std.specs.Prelude.{List, map as mapped};
    ghost use Rattle.type_table.specs.Written.{WrittenView, written_view};

    ghost Value = { List WrittenView };

    ghost view = { λ s. mapped written_view s.set.keys };
}

impl WrittenSet {
    /// No declarations. It takes no memory; `add` takes its from `alloc`.
    pub fn new(alloc: Global) -> WrittenSet
        ensures { result ≡ [] }
    {
        WrittenSet {
            set: IndexSet::new(alloc),
        }
    }

    /// Adds a declaration if it isn't there yet, and says whether it is new.
    pub fn add(&mut self, written: Written) -> Result<bool, AllocError>
        ensures told { IfOk result (λ new. new ≡ not (has_written self.old (written_view written))) }
        ensures added { OnOk result (self.new ≡ (if has_written self.old (written_view written) then self.old else self.old ++ written_view written ∷ [])) }
    {
        match self.set.insert(written) {
            Ok(new) => Ok(new),
            Err(_) => Err(AllocError),
        }
    }
}
