//! Numbers of eight bytes, least significant first, from bytes that come in pieces.
//!
//! Pieces come in, however they are cut, and the numbers' bytes go out one number at a time. The reader of run files
//! takes its numbers from it.

ghost use Rattle.std.specs.Prelude.{◌≡◌, ◌<◌, ◌++◌, [], length, IfSome, IfNone};

use std::marker::Model;

/// The bytes of a number that isn't whole yet, fewer than eight. It takes no memory.
#[derive(Debug, Drop)]
pub struct Unfinished {
    bytes: [u8; 8],
    count: usize,
}

impl Model for Unfinished {
    ghost use Rattle.std.specs.Prelude.{ℕ, List, ◌<◌, take};

    ghost Value = { List ℕ };

    ghost view = { λ unfinished. take unfinished.count unfinished.bytes };

    ghost invariant = { λ unfinished. unfinished.count < 8 };
}

impl Unfinished {
    /// No bytes.
    pub fn new() -> Unfinished
        ensures { result ≡ [] }
    {
        Unfinished {
            bytes: [0; 8],
            count: 0,
        }
    }

    /// How many bytes there are.
    pub fn len(&self) -> usize
        ensures value { result ≡ length self.now }
        ensures short { length self.now < 8 }
    {
        self.count
    }

    /// The bytes.
    pub fn as_slice(&self) -> &[u8]
        ensures value { result.now ≡ self.now }
        ensures short { length self.now < 8 }
    {
        &self.bytes[..self.count]
    }

    /// The next number's bytes, which the piece loses. Where too few came, they are kept for the next piece.
    pub fn next(&mut self, piece: &mut &[u8]) -> Option<[u8; 8]>
        ensures whole { IfSome result (λ number. (length number ≡ 8) × (self.old ++ piece.old.now ≡ number ++ piece.new.now) × (self.new ≡ [])) }
        ensures kept { IfNone result ((self.new ≡ self.old ++ piece.old.now) × (piece.new.now ≡ [])) }
        ensures short { length self.new < 8 }
    {
        match piece.split_at_checked(self.bytes.len() - self.count) {
            Some((front, rest)) => {
                self.bytes[self.count..].copy_from_slice(front);
                self.count = 0;
                *piece = rest;
                Some(self.bytes)
            }
            None => {
                let count = self.count + piece.len();
                self.bytes[self.count..count].copy_from_slice(piece);
                self.count = count;
                *piece = &[];
                None
            }
        }
    }
}
