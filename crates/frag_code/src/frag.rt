//! Fragments as lists of pieces.
//! The lowerings build them piece by piece, and `emit` turns them into code.

ghost use Rattle.std.specs.Prelude.{◌≡◌, List, [], ◌∷◌, ◌++◌, IfOk, OnOk, OnErr};
ghost use Rattle.std.specs.List.{All};
ghost use Rattle.frag_code.specs.Form.{IsPieceInField};

use crate::piece::Piece;
use std::alloc::{AllocError, Global};
use std::marker::Model;

/// Straight code with forward branches, a list of pieces. It keeps that each immediate, and what is reserved, is below
/// the field's order.
#[derive(Debug, Drop)]
pub struct Frag {
    pieces: Vec<Piece>,
}

impl Model for Frag {
    ghost use Rattle.std.specs.Prelude.{List};
    ghost use Rattle.std.specs.List.{All};
    ghost use Rattle.frag_code.specs.declared.piece.Piece.{Piece};
    ghost use Rattle.frag_code.specs.Form.{IsPieceInField};

    ghost Value = { List Piece };

    ghost view = { λ f. f.pieces.items };

    ghost invariant = { λ f. All IsPieceInField f.pieces.items };
}

impl Frag {
    /// No pieces. It takes no memory; later calls of `push` take theirs from `alloc`.
    pub fn new(alloc: Global) -> Frag
        ensures { result ≡ [] }
    {
        Frag {
            pieces: Vec::new(alloc),
        }
    }

    /// These pieces. It allocates once.
    pub fn from_pieces(alloc: Global, pieces: &[Piece]) -> Result<Frag, AllocError>
        requires { All IsPieceInField pieces.now }
        ensures { IfOk result (λ f. f ≡ pieces.now) }
    {
        Ok(Frag {
            pieces: pieces.to_vec(alloc)?,
        })
    }

    /// Adds a piece at the end.
    pub fn push(&mut self, p: Piece) -> Result<(), AllocError>
        requires { IsPieceInField p }
        ensures ok { OnOk result (self.new ≡ self.old ++ p ∷ []) }
        ensures err { OnErr result (self.new ≡ self.old) }
    {
        Ok(self.pieces.push(p)?)
    }

    /// The pieces in their order. It takes no memory.
    pub fn pieces(&self) -> &[Piece]
        ensures pieces { result.now ≡ self.now }
        ensures in_field { All IsPieceInField self.now }
    {
        &self.pieces
    }
}
