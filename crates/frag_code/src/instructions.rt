//! The instruction of each piece.
//! `emit` calls it for the pieces of a fragment.

ghost use Rattle.std.specs.Prelude.{◌≡◌, ◌≤◌, ◌<◌, IfSome};
ghost use Rattle.felt64.specs.Field.{modulus, negative};
ghost use Rattle.casm_word.specs.Offset.{IsNear};
ghost use Rattle.casm_word.specs.Bounds.{IsInstrInField};
ghost use Rattle.casm_word.specs.Expressions.{IsExprInField};
ghost use Rattle.frag_code.specs.Form.{is_jump, has_jump, IsSideNear, IsExprNear, IsPieceNear, IsPieceInField};
ghost use Rattle.frag_code.specs.Emit.{cell_of, operand_of, assertion, instr_of, cells_of, hint_of};

use crate::emission::HintAt;
use crate::piece::Piece;
use casm_word::{At, CellExpr, CellRef, Instr, Operand, Res, Side};
use felt64::Felt;

/// The cell, whose offset has 16 bits.
fn cell_of(at: At) -> CellRef
    requires { IsNear at.off }
    ensures { result ≡ cell_of at }
{
    CellRef {
        reg: at.base,
        off: at.off as i16,
    }
}

fn operand_of(side: Side) -> Operand
    requires { IsSideNear side }
    ensures { result ≡ operand_of side }
{
    match side {
        Side::Cell(at) => Operand::Cell(cell_of(at)),
        Side::Imm(n) => Operand::Imm(n),
    }
}

/// The negative of a number of the field.
fn negative(n: u64) -> u64
    requires { n < modulus }
    ensures { result ≡ negative n }
{
    Felt::reduce(u128::from(n)).neg().value()
}

/// The instruction that says that the cell has the word of the expression.
///
/// CASM has no difference: of two cells it is said as a sum, `a = c + b`, and of a cell and a number as the sum with the
/// number's negative.
fn assertion(cell: CellRef, e: CellExpr, ap_inc: bool) -> Instr
    requires near { IsExprNear e }
    requires in_field { IsExprInField e }
    ensures { result ≡ assertion cell e ap_inc }
{
    let (dst, res) = match e {
        CellExpr::Cell(at) => (cell, Res::Cell(cell_of(at))),
        CellExpr::DoubleCell(at, inner) => (cell, Res::Double(cell_of(at), inner)),
        CellExpr::Imm(n) => (cell, Res::Imm(n)),
        CellExpr::Sum(at, side) => (cell, Res::Add(cell_of(at), operand_of(side))),
        CellExpr::Diff(at, Side::Cell(b)) => {
            (cell_of(at), Res::Add(cell, Operand::Cell(cell_of(b))))
        }
        CellExpr::Diff(at, Side::Imm(n)) => {
            (cell, Res::Add(cell_of(at), Operand::Imm(negative(n))))
        }
        CellExpr::Product(at, side) => (cell, Res::Mul(cell_of(at), operand_of(side))),
    };
    Instr::AssertEq { dst, res, ap_inc }
}

/// Whether a fragment of these pieces has an `IfNonZero`.
pub(crate) fn has_jump(pieces: &[Piece]) -> bool
    ensures { result ≡ has_jump pieces.now }
{
    pieces.iter().any(|piece| piece.is_jump())
}

impl Piece {
    /// Whether the piece is an `IfNonZero`.
    pub(crate) fn is_jump(&self) -> bool
        ensures { result ≡ is_jump self.now }
    {
        matches!(self, Piece::IfNonZero(..))
    }

    /// The instruction of the piece, if it has one. `jumps` says whether the fragment has an `IfNonZero`, and `distance`
    /// where the piece's own jump leads.
    pub(crate) fn instr(&self, jumps: bool, distance: u64) -> Option<Instr>
        requires near { IsPieceNear self.now }
        requires in_field { IsPieceInField self.now }
        requires distance { distance < modulus }
        ensures instr { result ≡ instr_of jumps distance self.now }
        ensures in_field { IfSome result IsInstrInField }
    {
        match *self {
            Piece::Let(e) => Some(assertion(CellRef::ap(0), e, true)),
            Piece::Reserve(n) => Some(Instr::AddAp { by: Res::Imm(n) }),
            Piece::Hint { .. } => None,
            Piece::Assert(cell, e) => Some(assertion(cell, e, false)),
            Piece::Range { pointer, at, cell } => Some(Instr::AssertEq {
                dst: cell,
                res: Res::Double(pointer, at),
                ap_inc: false,
            }),
            Piece::IfNonZero(cond, _) => Some(Instr::Jnz {
                cond,
                to: Operand::Imm(distance),
                ap_inc: false,
            }),
            Piece::Exit(_) => jumps.then_some(Instr::Jump {
                rel: true,
                to: Res::Imm(distance),
                ap_inc: false,
            }),
        }
    }

    /// How many code cells the piece takes: those of its instruction's words.
    pub(crate) fn cells(&self, jumps: bool) -> u64
        requires near { IsPieceNear self.now }
        requires in_field { IsPieceInField self.now }
        ensures cells { result ≡ cells_of jumps self.now }
        ensures few { result ≤ 2 }
    {
        match self.instr(jumps, 0) {
            None => 0,
            Some(instr) => 1 + u64::from(instr.immediate().is_some()),
        }
    }

    /// The hint of a piece that lies at the code cell `pc`, if it is one.
    pub(crate) fn hint(&self, pc: u64) -> Option<HintAt>
        ensures { result ≡ hint_of pc self.now }
    {
        match *self {
            Piece::Hint { cell, ask } => Some(HintAt { pc, cell, ask }),
            _ => None,
        }
    }
}
