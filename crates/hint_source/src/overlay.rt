//! A source that answers what it was taught: words come in, each with the number of its query, and go out again where that
//! query comes. A script teaches it, and it stands before the honest source on the program's own shelf.

ghost use Rattle.std.specs.Prelude.{◌≡◌, refl, Some, Ok};
ghost use Rattle.std.specs.FinMap as map;
ghost use Rattle.hint_source.specs.Remembered.{overlay_view};

use crate::note::Note;
use crate::source::{HintSource, Query, TeachFault};
use felt64::Felt;
use std::alloc::{AllocError, Global};
use std::collections::BTreeMap;
use std::marker::Model;

/// The words that were taught, by the numbers of their queries.
#[derive(Debug, Drop)]
pub struct Overlay {
    taught: BTreeMap<u64, Felt>,
}

impl Model for Overlay {
    ghost use Rattle.std.specs.Coded.{coded_ℕ};
    ghost use Rattle.std.specs.FinMap.{code, from_entries};
    ghost use Rattle.hint_source.specs.View.{Taught};

    ghost Value = { Taught };

    ghost coded = { code coded_ℕ coded_ℕ };

    ghost view = { λ o. from_entries o.taught.entries };
}

impl Overlay {
    /// A source that was taught nothing. It takes no memory; `teach` takes its from `alloc`.
    pub fn new(alloc: Global) -> Overlay
        ensures { result ≡ map.empty }
    {
        Overlay {
            taught: BTreeMap::new(alloc),
        }
    }
}

impl HintSource for Overlay {
    ghost view = { λ words. Some (overlay_view words) };

    ghost keeps_nothing = { λ words _. (refl, refl) };

    fn answer(&mut self, q: &Query) -> Option<Felt> {
        self.taught.get(&q.number).copied()
    }

    fn teach(&mut self, number: u64, word: Felt) -> Result<(), TeachFault> {
        if self.taught.contains_key(&number) {
            return Err(TeachFault::Taken);
        }
        self.taught.insert(number, word)?;
        Ok(())
    }

    /// Takes every note, and keeps none.
    fn note(&mut self, _n: &Note<Felt>) -> Result<(), AllocError>
        ensures ok { result ≡ Ok tt }
        ensures unchanged { self.new ≡ self.old }
    {
        Ok(())
    }
}
