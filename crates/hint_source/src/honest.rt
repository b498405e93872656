//! The source with the right answers: queries and notes of a run come in, and the word that the code needs goes out.
//! It stands last on the program's own shelf.
//!
//! Logs are not built yet: a log is never begun, so the five kinds of query that name one have no answer, and the
//! note of a log that begins is refused for memory.

ghost use Rattle.std.specs.Prelude.{◌≡◌, Some, Err};
ghost use Rattle.std.specs.FinMap.{empty};
ghost use Rattle.std.proofs.lemmas.Bool.{true≢false};
ghost use Rattle.hint_source.specs.Honest.{honest_answer, fresh_answer, quotient as quotient_of, remainder as remainder_of};
ghost use Rattle.hint_source.specs.Remembered.{nothing_remembered, honest_view};

use crate::kind::Kind;
use crate::note::Note;
use crate::source::{HintSource, Query, TeachFault};
use felt64::Felt;
use std::alloc::{AllocError, Global};
use std::marker::Model;

/// The first segment that nothing else uses: the code, the stack and the range checks have one each.
const FIRST_SEGMENT: u64 = 3;

/// The segment at the field's end, which is a single cell.
const LAST_SEGMENT: u64 = 0xffff_ffff;

/// The right answer to every query that has one, from the notes of the run.
#[derive(Debug, Drop)]
pub struct Honest {
    fresh: u32,
}

impl Model for Honest {
    ghost use Rattle.std.specs.FinMap.{empty};
    ghost use Rattle.hint_source.specs.Remembered.{Remembered, remembered_code};

    ghost Value = { Remembered };

    ghost coded = { remembered_code };

    ghost view = { λ h. record { logs = empty; fresh = h.fresh } };
}

impl Honest {
    /// A source that has answered nothing and was sent no note. It takes no memory; logs, once they are built, take theirs
    /// from the allocator.
    pub fn new(_alloc: Global) -> Honest
        ensures { result ≡ nothing_remembered }
    {
        Honest { fresh: 0 }
    }
}

impl HintSource for Honest {
    ghost view = { λ remembered. Some (honest_view remembered) };

    ghost keeps_nothing = { λ remembered is. absurd (true≢false is) };

    fn answer(&mut self, q: &Query) -> Option<Felt> {
        let answer = right_answer(self.fresh, q.kind);
        if answer.is_some() && matches!(q.kind, Kind::Fresh) {
            self.fresh += 1;
        }
        answer
    }

    /// Declines every word.
    fn teach(&mut self, _number: u64, _word: Felt) -> Result<(), TeachFault>
        ensures declined { result ≡ Err TeachFault.Declined }
        ensures err { self.new ≡ self.old }
    {
        Err(TeachFault::Declined)
    }

    /// Takes a note. A log can't begin yet, so such a note is refused for memory.
    fn note(&mut self, n: &Note<Felt>) -> Result<(), AllocError> {
        // Read for the proof: there is no log.
        let _ = &self.fresh;
        match n {
            Note::Begun { .. } => Err(AllocError),
            Note::Written { .. } => Ok(()),
        }
    }
}

/// The answer of a source that has no log and answered so many Fresh queries.
fn right_answer(answered: u32, kind: Kind<Felt>) -> Option<Felt>
    ensures { result ≡ honest_answer empty answered kind }
{
    match kind {
        Kind::Less { a, b } => Some(Felt::from(u32::from(a.value() < b.value()))),
        Kind::Quotient { a, b } => quotient(a, b),
        Kind::Remainder { a, b } => remainder(a, b),
        Kind::High { a } => Some(Felt::from(a.split().0)),
        Kind::Low { a } => Some(Felt::from(a.split().1)),
        Kind::Fresh => segment_start(answered),
        Kind::Previous { .. }
        | Kind::KeyCount { .. }
        | Kind::KeyAt { .. }
        | Kind::FirstAt { .. }
        | Kind::NextIn { .. } => None,
    }
}

/// The first address of the next segment, after so many that were given.
fn segment_start(answered: u32) -> Option<Felt>
    ensures { result ≡ fresh_answer answered }
{
    let segment = FIRST_SEGMENT + u64::from(answered);
    if segment < LAST_SEGMENT {
        Felt::new(segment << 32)
    } else {
        None
    }
}

/// The quotient of whole numbers.
fn quotient(a: Felt, b: Felt) -> Option<Felt>
    ensures { result ≡ quotient_of a b }
{
    Felt::new(a.value().checked_div(b.value())?)
}

/// The remainder of whole numbers.
fn remainder(a: Felt, b: Felt) -> Option<Felt>
    ensures { result ≡ remainder_of a b }
{
    Felt::new(a.value().checked_rem(b.value())?)
}
