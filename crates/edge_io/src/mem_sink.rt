//! A sink in memory that fails where a list says so: what comes in are pieces, what goes out are the bytes that were
//! kept. Tests of the layers above write to it.

ghost use Rattle.std.specs.Prelude.{◌≡◌, ℕ, ◌≤◌, ◌<◌, length, take, [], IfOk, MatchResult};
ghost use Rattle.edge_io.specs.Counts.{call_fails};
ghost use Rattle.edge_io.specs.Sinks.{WritesAll, WritesPart};
ghost use Rattle.edge_io.specs.KeptBytes.{nothing_kept, kept_view, called, kept, WriteAnswers, after_write};

use crate::sinks::{Failed, Sink};
use std::alloc::{AllocError, Global};
use std::marker::Model;

/// A sink that keeps what fits its room, takes a few bytes at a time, and fails at the calls that a list names.
#[derive(Drop)]
pub struct MemSink {
    bytes: Vec<u8>,
    room: usize,
    left_out: u64,
    cut: usize,
    fails: Vec<u64>,
    calls: u64,
    faults: u64,
}

impl Model for MemSink {
    ghost use Rattle.std.specs.Prelude.{◌≤◌, vec_len, vec_capacity};
    ghost use Rattle.edge_io.specs.KeptBytes.{KeptBytes};

    ghost Value = { KeptBytes };

    ghost view = { λ a. record { bytes = a.bytes.items; room = a.room; left_out = a.left_out; cut = a.cut; fails = a.fails.items; calls = a.calls; faults = a.faults } };

    ghost invariant = { λ a. (vec_len a.bytes ≤ a.room) × (a.room ≤ vec_capacity a.bytes) };
}

impl MemSink {
    /// A sink before the first call, which has the number 0. A write takes at most `cut` bytes, and 1 where `cut` is 0;
    /// a call whose number is in `fails` fails. `room` bytes are kept, and their memory is taken at once.
    pub fn new(
        alloc: Global,
        cut: usize,
        fails: Vec<u64>,
        room: usize,
    ) -> Result<MemSink, AllocError>
        ensures { IfOk result (λ s. s ≡ nothing_kept cut fails.items room) }
    {
        let bytes = Vec::with_capacity(alloc, room)?;
        Ok(MemSink {
            bytes,
            room,
            left_out: 0,
            cut,
            fails,
            calls: 0,
            faults: 0,
        })
    }

    /// The bytes that were kept: all that was written, or as long a prefix as there was room for.
    pub fn bytes(&self) -> &[u8]
        ensures { result.now ≡ self.now.bytes }
    {
        &self.bytes
    }

    /// How many calls there were, which is the number of the next one. It stays at its greatest value.
    pub fn calls(&self) -> u64
        ensures { result ≡ self.now.calls }
    {
        self.calls
    }

    /// How many calls failed.
    pub fn faults(&self) -> u64
        ensures { result ≡ self.now.faults }
    {
        self.faults
    }

    /// Keeps what fits the room, and counts the rest.
    fn keep(&mut self, piece: &[u8])
        ensures { self.new ≡ kept self.old piece.now }
    {
        let fitting = piece.len().min(self.room - self.bytes.len());
        self.bytes.extend_from_slice(&piece[..fitting]).unwrap();
        self.left_out = self.left_out.saturating_add((piece.len() - fitting) as u64);
    }

    /// Counts a call, and answers whether it fails.
    fn call(&mut self) -> bool
        ensures fails { result ≡ call_fails self.old.fails self.old.calls }
        ensures after { self.new ≡ called self.old result }
        ensures faults_kept { self.old.faults ≤ self.new.faults }
    {
        let fails = self.fails.contains(&self.calls);
        self.calls = self.calls.saturating_add(1);
        if fails {
            self.faults = self.faults.saturating_add(1);
        }
        fails
    }
}

impl Sink for MemSink {
    ghost view = { kept_view };

    fn write(&mut self, piece: &[u8]) -> Result<usize, Failed>
        ensures within { IfOk result (λ n. n ≤ length piece.now) }
        ensures takes { 0 < length piece.now → IfOk result (λ n. 0 < n) }
        ensures writes { MatchResult result
            (λ n. WritesAll (kept_view self.old) (kept_view self.new) (take n piece.now))
            (λ _. WritesPart (kept_view self.old) (kept_view self.new) []) }
        ensures answer { WriteAnswers self.old piece.now result }
        ensures after { self.new ≡ after_write self.old piece.now result }
    {
        if self.call() {
            return Err(Failed);
        }
        let taken = piece.len().min(self.cut.max(1));
        self.keep(&piece[..taken]);
        Ok(taken)
    }
}
