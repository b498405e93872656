//! A segment of memory: cells with consecutive addresses, each with its word.
//! A memory keeps its cells as segments in order of address, and the walk over its cells reads them.

ghost use Rattle.std.specs.Prelude.{◌≡◌, ◌+◌, ◌-◌, ◌<◌, ◌≤◌, ◌↔◌, ◌++◌, ◌∷◌, [], ℕ, IsTrue, OnOk, OnErr, length, slice_index};
ghost use Rattle.felt64.specs.Field.{modulus};
ghost use Rattle.std.specs.List.{slice_get};
ghost use Rattle.ro_machine.specs.Stretches.{Stretch, words_of, end_of, with_next};

use felt64::Felt;
use std::alloc::{AllocError, Global};
use std::marker::Model;
use std::mem::size_of;

/// Cells with consecutive addresses, at least one. A segment of one cell takes no memory beside itself.
#[derive(Debug, Drop)]
pub struct Segment {
    start: Felt,
    first: Felt,
    others: Vec<Felt>,
}

// The room of memory whose cells lie all apart.
const _: () = prove!(size_of::<Segment>() == 40);

impl Model for Segment {
    ghost use Rattle.ro_machine.specs.Stretches.{Stretch};

    ghost Value = { Stretch };

    ghost view = { λ s. record { start = s.start; first = s.first; others = s.others.items } };
}

impl Segment {
    /// One cell.
    pub fn new(alloc: Global, addr: Felt, word: Felt) -> Segment
        ensures { result ≡ record { start = addr; first = word; others = [] } }
    {
        Segment {
            start: addr,
            first: word,
            others: Vec::new(alloc),
        }
    }

    /// The address of the first cell.
    pub fn start(&self) -> Felt
        ensures { result ≡ self.now.start }
    {
        self.start
    }

    /// The first cell.
    pub fn first(&self) -> (Felt, Felt)
        ensures { result ≡ (self.now.start, self.now.first) }
    {
        (self.start, self.first)
    }

    /// The offset of the last cell from the start.
    pub fn last_offset(&self) -> usize
        ensures { result ≡ length self.now.others }
    {
        self.others.len()
    }

    /// The cell at an offset from the start.
    pub fn cell(&self, offset: usize) -> (Felt, Felt)
        requires in_range { offset ≤ length self.now.others }
        requires in_field { self.now.start + offset < modulus }
        ensures { result ≡ (self.now.start + offset, slice_index (words_of self.now) offset) }
    {
        let word = match offset {
            0 => self.first,
            _ => self.others[offset - 1],
        };
        (self.start.add(Felt::reduce(offset as u128)), word)
    }

    /// The word of a cell that is not below the segment, if the segment has it.
    pub fn get(&self, addr: Felt) -> Option<Felt>
        requires { self.now.start ≤ addr }
        ensures { result ≡ slice_get (words_of self.now) (addr - self.now.start) }
    {
        match addr.value() - self.start.value() {
            0 => Some(self.first),
            offset => self.others.get((offset - 1) as usize).copied(),
        }
    }

    /// Whether this is the address behind the last cell.
    pub fn ends_before(&self, addr: Felt) -> bool
        ensures { IsTrue result ↔ (addr ≡ end_of self.now) }
    {
        addr.value().checked_sub(self.start.value() + 1) == Some(self.others.len() as u64)
    }

    /// Adds a cell behind the last one.
    pub fn push(&mut self, word: Felt) -> Result<(), AllocError>
        ensures ok { OnOk result (self.new ≡ with_next self.old word) }
        ensures err { OnErr result (self.new ≡ self.old) }
    {
        Ok(self.others.push(word)?)
    }
}
