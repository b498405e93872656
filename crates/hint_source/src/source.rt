//! Sources of the words that a run asks for: what comes in are queries, words that are taught and notes, what goes out are
//! answers. The runner asks them, a script teaches them.

ghost use Rattle.std.specs.Prelude.{◌≡◌, Option, IfSome, OnOk, OnErr};
ghost use Rattle.std.specs.Option.{option_map};
ghost use Rattle.hint_source.specs.View.{View, KeepsNothing, Teaches, answer_of, view_after_query, view_after_teaching, view_after_note};

use crate::kind::Kind;
use crate::note::Note;
use felt64::Felt;
use std::alloc::{AllocError, AllocFailed};
use thiserror::Error;

/// A word that a run asks for.
#[derive(Clone, Copy, Debug, PartialEq, Eq)]
pub struct Query {
    /// The number of the query in its run, counted from 0.
    pub number: u64,
    /// What is asked.
    pub kind: Kind<Felt>,
}

/// Why a source didn't take a word.
#[derive(Clone, Copy, Debug, PartialEq, Eq, Drop, Error)]
pub enum TeachFault {
    /// The source takes no words.
    #[error("the source takes no answers")]
    Declined,
    /// The source was taught a word for this query before.
    #[error("the query has an answer")]
    Taken,
    /// There was no memory to keep the word.
    #[error("out of memory")]
    Memory,
}

impl<T: Drop> From<AllocFailed<T>> for TeachFault {
    ghost use Rattle.std.specs.Prelude.{◌≡◌};
    ghost use Rattle.hint_source.specs.declared.source.TeachFault.TheVariants.{Memory};

    ghost from_gives = { λ _ fault. fault ≡ Memory };

    fn from(_fault: AllocFailed<T>) -> TeachFault {
        TeachFault::Memory
    }
}

/// Something that answers the queries of a run. Its answers are never trusted: what a run shows doesn't depend on them.
///
/// A run asks its sources in order and takes the first answer; each note goes to all of them.
pub trait HintSource: Drop {
    /// What the object shows of itself, if it shows anything. One that shows nothing may answer anything.
    ghost view: { Self → Option View };

    /// The answer to a query, or None where the source has none. It takes no memory.
    fn answer(&mut self, q: &Query) -> Option<Felt>
        ensures known { IfSome (view self.old) (λ v. result ≡ answer_of v q.now) }
        ensures after { view self.new ≡ option_map (λ v. view_after_query v q.now) (view self.old) };

    /// Teaches the answer to the query of this number. A script does so before the run, line by line.
    fn teach(&mut self, number: u64, word: Felt) -> Result<(), TeachFault>
        ensures known { IfSome (view self.old) (λ v. Teaches v number result) }
        ensures ok { OnOk result (view self.new ≡ option_map (λ v. view_after_teaching v number word) (view self.old)) }
        ensures err { OnErr result (self.new ≡ self.old) };

    /// Takes a note of what the run has done. The only fault is out of memory.
    fn note(&mut self, n: &Note<Felt>) -> Result<(), AllocError>
        ensures ok { OnOk result (view self.new ≡ option_map (λ v. view_after_note v n.now) (view self.old)) }
        ensures err { OnErr result (self.new ≡ self.old) };

    /// A view that isn't honest keeps no list, and its number of answered Fresh queries stays 0.
    ghost keeps_nothing: { (s : Self) → IfSome (view s) KeepsNothing };
}
