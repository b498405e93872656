//! The listed cells of a memory, one by one in order of address.
//! The writers of run files and the tables of accesses go through a memory so.

ghost use Rattle.std.specs.Prelude.{◌≡◌};
ghost use Rattle.std.specs.Iterator.{YieldsFirst, item_count};
ghost use Rattle.ro_machine.specs.Stretches.{AreApart, cells_of};

use crate::segment::Segment;
use felt64::Felt;
use std::marker::Model;

/// The cells that are left, in order of address. Each takes constant time and no memory.
#[derive(Debug, Drop)]
pub struct ListedCells<'a> {
    segments: &'a [Segment],
    offset: usize,
}

impl<'a> Model for ListedCells<'a> {
    ghost use Rattle.std.specs.Prelude.{List, ℕ};

    ghost Value = { List (ℕ × ℕ) };

    ghost use Rattle.ro_machine.specs.Stretches.{cells_from, IsWalk};

    ghost view = { λ c. cells_from c.offset c.segments.now };

    ghost invariant = { λ c. IsWalk c.offset c.segments.now };
}

/// All cells of the segments.
pub(crate) fn listed_cells(segments: &[Segment]) -> ListedCells<'_>
    requires { AreApart 0 segments.now }
    ensures { result ≡ cells_of segments.now }
{
    ListedCells {
        segments,
        offset: 0,
    }
}

impl<'a> Iterator for ListedCells<'a> {
    type Item = (Felt, Felt);

    ghost next_gives = { YieldsFirst (λ c. c) };

    ghost remaining = { item_count (λ c. c) };

    fn next(&mut self) -> Option<(Felt, Felt)> {
        let (segment, later) = self.segments.split_first()?;
        let cell = segment.cell(self.offset);
        if self.offset == segment.last_offset() {
            self.segments = later;
            self.offset = 0;
        } else {
            self.offset += 1;
        }
        Some(cell)
    }
}
