//! From fragments to code: the instructions of a fragment at a place, and the hints that are asked there.
//! The layout of a program's code calls it for each statement, and for each part of the squash routine.

ghost use Rattle.std.specs.Prelude.{◌≡◌, ℕ, [], ◌+◌, ◌++◌, ◌^◌, ◌<◌, ◌≤◌, List, length, drop, take, slice_index, IsTrue, IfOk, OnOk, Some};
ghost use Rattle.std.specs.List.{All, slice_get};
ghost use Rattle.std.specs.Option.{option_to_list};
ghost use Rattle.felt64.specs.Field.{modulus, difference};
ghost use Rattle.frag_code.specs.declared.piece.Piece.{Piece};
ghost use Rattle.frag_code.specs.Form.{IsWellFormed, IsPieceNear, IsPieceInField, has_jump, shape};
ghost use Rattle.frag_code.specs.Emit.{code_of, hints_of, cells_of_code, code_cells, distance, instr_of, hint_of};
ghost use Rattle.frag_code.specs.Meaning.{Names, AreEntries, IsPut, MeansFragment};
ghost use Rattle.frag_code.specs.Tables.{places_from, IsLeap, leap_of};

use crate::frag::Frag;
use crate::instructions::has_jump;
use crate::piece::{Ask, Piece};
use casm_word::{CellRef, Code};
use felt64::Felt;
use std::alloc::{AllocError, Global};

/// A hint and where it is asked.
#[derive(Clone, Copy, Debug)]
pub struct HintAt {
    /// The code cell of the next step.
    pub pc: u64,
    /// The cell whose word is asked for.
    pub cell: CellRef,
    /// What is asked. Its expressions count from ap as it is there.
    pub ask: Ask,
}

/// The code of a fragment, and its hints in the order of asking.
#[derive(Debug, Drop)]
pub struct Emitted {
    /// The instructions.
    pub code: Code,
    /// The hints.
    pub hints: Vec<HintAt>,
}

impl Emitted {
    fn new(alloc: Global) -> Emitted
        ensures code { result.code ≡ [] }
        ensures hints { result.hints.items ≡ [] }
    {
        Emitted {
            code: Code::new(alloc),
            hints: Vec::new(alloc),
        }
    }

    /// Adds the instruction and the hint of a piece that lies at the code cell `pc`.
    fn add(&mut self, piece: &Piece, jumps: bool, distance: u64, pc: u64) -> Result<(), AllocError>
        requires near { IsPieceNear piece.now }
        requires in_field { IsPieceInField piece.now }
        requires distance { distance < modulus }
        ensures code { OnOk result (self.new.code ≡ self.old.code ++ option_to_list (instr_of jumps distance piece.now)) }
        ensures hints { OnOk result (self.new.hints.items ≡ self.old.hints.items ++ option_to_list (hint_of pc piece.now)) }
    {
        if let Some(instr) = piece.instr(jumps, distance) {
            self.code.push(instr)?;
        }
        if let Some(hint) = piece.hint(pc) {
            self.hints.push(hint)?;
        }
        Ok(())
    }
}

/// The code cells at which the pieces lie.
fn places(alloc: Global, pieces: &[Piece], jumps: bool, at: u64) -> Result<Vec<u64>, AllocError>
    requires near { All IsPieceNear pieces.now }
    requires in_field { All IsPieceInField pieces.now }
    requires code_fits { at + code_cells jumps pieces.now ≤ 2 ^ 25 }
    ensures { IfOk result (λ places. places.items ≡ places_from jumps at pieces.now) }
{
    let mut places = Vec::with_capacity(alloc, pieces.len())?;
    let mut place = at;
    for piece in pieces {
        places.push(place)?;
        place += piece.cells(jumps);
    }
    Ok(places)
}

/// The distance of the jump of a piece that lies at a code cell, 0 where it has none.
fn leap(piece: &Piece, place: u64, places: &[u64], exits: &[u64]) -> u64
    requires place { place ≤ 2 ^ 25 }
    requires leap { IsLeap piece.now place places.now exits.now }
    ensures leap { result ≡ leap_of piece.now place places.now exits.now }
    ensures in_field { result < modulus }
{
    match *piece {
        Piece::IfNonZero(_, to) => places[to as usize] - place,
        Piece::Exit(branch) => {
            let exit = Felt::reduce(u128::from(exits[branch as usize]));
            exit.sub(Felt::reduce(u128::from(place))).value()
        }
        _ => 0,
    }
}

/// The code of a fragment from the cell `at` on, where branch `k` leads to the cell `exits[k]`.
///
/// The code means the fragment where, besides, the exit of a fragment without an `IfNonZero` is the cell after the code. A
/// stretch to an exit is an evaluation where no exit lies in the code and no two branches have one cell.
///
/// # Errors
///
/// Out of memory.
pub fn emit(alloc: Global, f: &Frag, at: u64, exits: &[u64]) -> Result<Emitted, AllocError>
    requires well_formed { IsWellFormed f.now }
    requires entries { AreEntries f.now exits.now }
    requires code_fits { at + cells_of_code f.now ≤ 2 ^ 25 }
    ensures code { IfOk result (λ e. e.code ≡ code_of f.now at (slice_index exits.now)) }
    ensures hints { IfOk result (λ e. e.hints.items ≡ hints_of f.now at) }
    ensures means { IsPut f.now at (slice_index exits.now) → IfOk result (λ e. MeansFragment f.now at (slice_index exits.now) e.code) }
{
    let pieces = f.pieces();
    let jumps = has_jump(pieces);
    let places = places(alloc, pieces, jumps, at)?;
    let places = places.as_slice();
    let mut emitted = Emitted::new(alloc);
    for (i, piece) in pieces.iter().enumerate() {
        let place = places[i];
        let distance = leap(piece, place, places, exits);
        emitted.add(piece, jumps, distance, place)?;
    }
    Ok(emitted)
}
