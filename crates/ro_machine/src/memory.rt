//! Read-only memory: the cells that are listed, each with the word that it has for ever.
//! Addresses and words come in one by one; what goes out is the word of a cell, the first cell from an address on, or
//! all cells in order of address.
//! The machine's steps, the trace check and the runner read it, and the readers and writers of run files go through it.

ghost use Rattle.std.specs.Prelude.{◌≡◌, ◌≢◌, ◌⊎◌, ◌↔◌, ℕ, length, IfSome, IfNone, IfOk, IfErr, OnOk, OnErr, ◌≤◌};
ghost use Rattle.std.specs.FinMap as map;
ghost use Rattle.std.specs.List.{insert};
ghost use Rattle.ro_machine.specs.Cells.{IsFirstFrom, NoneFrom};
ghost use Rattle.ro_machine.specs.Memory.{IsMemory};
ghost use Rattle.ro_machine.specs.Stretches.{AreApart, IsPlace, map_of, Adds};

use crate::listed_cells::{ListedCells, listed_cells};
use crate::segment::Segment;
use felt64::Felt;
use std::alloc::{AllocError, Global};
use std::marker::Model;
use thiserror::Error;

/// The listed cells. A word that is listed never changes.
///
/// They are kept as segments of consecutive cells, in order of address. A look-up searches the starts of the segments
/// and indexes, so it takes a few comparisons where memory is a few dense segments, as that of an honest run. A segment
/// grows at its end in constant time, so segments that are filled in turn take linear time, and so do cells in order of
/// address, also where each lies far from the next. Any other cell opens a segment, which moves the segments above it.
///
/// Segments never merge. Where a cell fills a gap it joins the segment below, and two segments touch; a cell right
/// before a segment opens one of its own. Both leave one start more to search.
#[derive(Debug, Drop)]
pub struct Memory {
    segments: Vec<Segment>,
    count: u64,
}

impl Model for Memory {
    ghost use Rattle.std.specs.Coded.{coded_ℕ};
    ghost use Rattle.std.specs.FinMap.{code};
    ghost use Rattle.ro_machine.specs.Cells.{Cells};

    ghost Value = { Cells };

    ghost coded = { code coded_ℕ coded_ℕ };

    ghost use Rattle.ro_machine.specs.Stretches.{map_of, IsKept};

    ghost view = { λ m. map_of m.segments.items };

    ghost invariant = { λ m. IsKept m.segments.items m.count };
}

/// Why a cell was not listed.
#[derive(Clone, Copy, Debug, PartialEq, Eq, Drop, Error)]
pub enum InsertFault {
    /// The cell has this other word.
    #[error("the cell has another word")]
    Differs {
        /// The word that the cell has.
        had: Felt,
    },
    /// Memory ran out.
    #[error("out of memory")]
    Memory,
}

impl From<AllocError> for InsertFault {
    ghost use Rattle.std.specs.Prelude.{◌≡◌};
    ghost use Rattle.ro_machine.specs.declared.memory.InsertFault.TheVariants.{Memory};

    ghost from_gives = { λ _ fault. fault ≡ Memory };

    fn from(_: AllocError) -> InsertFault {
        InsertFault::Memory
    }
}

impl Memory {
    /// No cells. It takes no memory; later calls of `insert` take theirs from `alloc`.
    pub fn new(alloc: Global) -> Memory
        ensures { result ≡ map.empty }
    {
        Memory {
            segments: Vec::new(alloc),
            count: 0,
        }
    }

    /// The word of a cell. It takes no memory.
    pub fn get(&self, addr: Felt) -> Option<Felt>
        ensures word { result ≡ map.get self.now addr }
        ensures in_field { IsMemory (map.get self.now) }
    {
        word_at(&self.segments, place_of(&self.segments, addr), addr)
    }

    /// Lists a cell. A cell behind the last one of a segment is added in constant time, and so is a cell above all
    /// others. Any other cell moves the segments above it.
    pub fn insert(&mut self, addr: Felt, word: Felt) -> Result<(), InsertFault>
        ensures ok { OnOk result (self.new ≡ map.insert self.old addr word) }
        ensures listed { OnOk result ((map.get self.old addr ≡ None) ⊎ ((map.get self.old addr ≡ Some word) × (self.new ≡ self.old))) }
        ensures differs { (had : ℕ) → (result ≡ Err (InsertFault.Differs had)) ↔ ((map.get self.old addr ≡ Some had) × (had ≢ word)) }
        ensures err { OnErr result (self.new ≡ self.old) }

        // A cell that is listed already never runs out of memory.
        ensures same { map.get self.old addr ≡ Some word → result ≡ Ok tt }
    {
        let at = place_of(&self.segments, addr);
        match word_at(&self.segments, at, addr) {
            Some(had) => same(had, word),
            None => {
                add(&mut self.segments, at, addr, word)?;
                self.count += 1;
                Ok(())
            }
        }
    }

    /// Lists a cell that isn't listed yet, without a look-up for a word that differs. It costs what `insert` costs.
    pub fn insert_new(&mut self, addr: Felt, word: Felt) -> Result<(), AllocError>
        requires { map.get self.old addr ≡ None }
        ensures ok { OnOk result (self.new ≡ map.insert self.old addr word) }
        ensures err { OnErr result (self.new ≡ self.old) }
    {
        let at = place_of(&self.segments, addr);
        add(&mut self.segments, at, addr, word)?;
        self.count += 1;
        Ok(())
    }

    /// The number of listed cells, in constant time. It takes no memory.
    pub fn len(&self) -> u64
        ensures count { result ≡ map.len self.now }
        ensures in_field { IsMemory (map.get self.now) }
    {
        self.count
    }

    /// The listed cell of least address at or above `addr`. It takes no memory.
    pub fn from(&self, addr: Felt) -> Option<(Felt, Felt)>
        ensures first { IfSome result (IsFirstFrom self.now addr) }
        ensures none { IfNone result (NoneFrom self.now addr) }
        ensures in_field { IsMemory (map.get self.now) }
    {
        let at = place_of(&self.segments, addr);
        match word_at(&self.segments, at, addr) {
            Some(word) => Some((addr, word)),
            None => Some(self.segments.get(at)?.first()),
        }
    }

    /// The listed cells in order of address, in linear time. It takes no memory.
    pub fn cells(&self) -> ListedCells<'_>
        ensures cells { result ≡ map.entries self.now }
        ensures in_field { IsMemory (map.get self.now) }
    {
        listed_cells(&self.segments)
    }
}

/// Passes where the cell has this word already.
fn same(had: Felt, word: Felt) -> Result<(), InsertFault>
    ensures ok { OnOk result (had ≡ word) }
    ensures err { IfErr result (λ fault. (fault ≡ InsertFault.Differs had) × (had ≢ word)) }
{
    if had == word {
        Ok(())
    } else {
        Err(InsertFault::Differs { had })
    }
}

/// How many segments start at or below the address. An address from the last start on takes one comparison.
fn place_of(segments: &[Segment], addr: Felt) -> usize
    requires { AreApart 0 segments.now }
    ensures { IsPlace segments.now addr result }
{
    match segments.last() {
        Some(last) if last.start().value() <= addr.value() => segments.len(),
        _ => segments.partition_point(|segment| segment.start().value() <= addr.value()),
    }
}

/// The word of a cell. No segment but the last that starts at or below the address can have it.
fn word_at(segments: &[Segment], at: usize, addr: Felt) -> Option<Felt>
    requires apart { AreApart 0 segments.now }
    requires place { IsPlace segments.now addr at }
    ensures { result ≡ map.get (map_of segments.now) addr }
{
    match at {
        0 => None,
        _ => segments[at - 1].get(addr),
    }
}

/// Adds a cell that isn't listed to the segment that it lies behind, or else as a segment of its own.
fn add(segments: &mut Vec<Segment>, at: usize, addr: Felt, word: Felt) -> Result<(), AllocError>
    requires apart { AreApart 0 segments.old.items }
    requires place { IsPlace segments.old.items addr at }
    requires unlisted { map.get (map_of segments.old.items) addr ≡ None }
    ensures ok { OnOk result (Adds segments.old.items addr word segments.new.items) }
    ensures err { OnErr result (segments.new.items ≡ segments.old.items) }
{
    // The number of a `Felt` is below P, so what is listed stays in the field.
    let _in_field = (addr.value(), word.value());
    if at > 0 && segments[at - 1].ends_before(addr) {
        segments[at - 1].push(word)
    } else {
        let segment = Segment::new(*segments.allocator(), addr, word);
        open(segments, at, segment)
    }
}

/// Puts a segment in its place. Room grows by half, so a cell that lies apart from all others takes at most 60 bytes,
/// less than four times the 16 that it has in a run file.
fn open(segments: &mut Vec<Segment>, at: usize, segment: Segment) -> Result<(), AllocError>
    requires { at ≤ length segments.old.items }
    ensures ok { OnOk result (segments.new.items ≡ insert segments.old.items at segment) }
    ensures err { OnErr result (segments.new.items ≡ segments.old.items) }
{
    if segments.len() == segments.capacity() {
        segments.reserve_exact(segments.len() / 2 + 1)?;
    }
    Ok(segments.insert(at, segment)?)
}
