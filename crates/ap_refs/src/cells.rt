//! The expressions of a variable's cells.

ghost use Rattle.std.specs.Prelude.{◌≡◌, [], ◌∷◌, IfOk};

use casm_word::CellExpr;
use std::alloc::{AllocError, Global};
use std::marker::Model;
use std::slice;

/// The expressions of a variable's cells, in order.
///
/// Most variables have one cell, which takes no memory of its own.
#[derive(Debug, Drop)]
pub struct Cells {
    kept: Kept,
}

/// How the expressions are kept.
#[derive(Debug, Drop)]
enum Kept {
    /// A single one.
    One(CellExpr),
    /// None or several.
    List(Vec<CellExpr>),
}

impl Model for Cells {
    ghost use Rattle.std.specs.Prelude.{List};
    ghost use Rattle.casm_word.specs.declared.cell_expr.CellExpr.{CellExpr as Expr};
    ghost use Rattle.ap_refs.specs.Kept.{items_of};

    ghost Value = { List Expr };

    ghost view = { λ cells. items_of cells.kept };
}

impl Cells {
    /// No cells. It takes no memory.
    pub fn new(alloc: Global) -> Cells
        ensures { result ≡ [] }
    {
        Cells {
            kept: Kept::List(Vec::new(alloc)),
        }
    }

    /// A single cell. It takes no memory.
    pub fn one(cell: CellExpr) -> Cells
        ensures { result ≡ cell ∷ [] }
    {
        Cells {
            kept: Kept::One(cell),
        }
    }

    /// These cells. It takes no memory.
    pub fn from_vec(list: Vec<CellExpr>) -> Cells
        ensures { result ≡ list.items }
    {
        Cells {
            kept: Kept::List(list),
        }
    }

    /// The same cells as these. For a single one it takes no memory.
    pub fn from_slice(alloc: Global, cells: &[CellExpr]) -> Result<Cells, AllocError>
        ensures { IfOk result (λ made. made ≡ cells.now) }
    {
        if let [cell] = cells {
            return Ok(Cells::one(*cell));
        }
        Ok(Cells::from_vec(Vec::from_slice(alloc, cells)?))
    }

    /// The cells as a slice.
    pub fn items(&self) -> &[CellExpr]
        ensures { result.now ≡ self.now }
    {
        match &self.kept {
            Kept::One(cell) => slice::from_ref(cell),
            Kept::List(list) => list,
        }
    }
}

impl Clone for Cells {
    ghost use Rattle.std.specs.Prelude.{◌≡◌};

    ghost is_clone = { λ cells copied. copied ≡ cells };

    fn clone(&self) -> Result<Cells, AllocError> {
        match &self.kept {
            Kept::One(cell) => Ok(Cells::one(*cell)),
            Kept::List(list) => Ok(Cells::from_vec(Vec::from_slice(*list.allocator(), list)?)),
        }
    }
}

/// The expressions of a variable's cells, in order, as they are read.
#[derive(Debug, Drop)]
pub struct CellsAt<'a> {
    read: Read<'a>,
}

/// How the expressions are read.
#[derive(Debug, Drop)]
enum Read<'a> {
    /// A single one.
    One(CellExpr),
    /// None or several, where they are kept.
    Lent(&'a [CellExpr]),
}

impl<'a> Model for CellsAt<'a> {
    ghost use Rattle.std.specs.Prelude.{List};
    ghost use Rattle.casm_word.specs.declared.cell_expr.CellExpr.{CellExpr as Expr};
    ghost use Rattle.ap_refs.specs.Kept.{read_of};

    ghost Value = { List Expr };

    ghost view = { λ cells. read_of cells.read };
}

impl<'a> CellsAt<'a> {
    /// A single cell.
    pub(crate) fn one(cell: CellExpr) -> CellsAt<'a>
        ensures { result ≡ cell ∷ [] }
    {
        CellsAt {
            read: Read::One(cell),
        }
    }

    /// These cells.
    pub(crate) fn lent(cells: &'a [CellExpr]) -> CellsAt<'a>
        ensures { result ≡ cells.now }
    {
        CellsAt {
            read: Read::Lent(cells),
        }
    }

    /// The cells as a slice.
    pub fn items(&self) -> &[CellExpr]
        ensures { result.now ≡ self.now }
    {
        match &self.read {
            Read::One(cell) => slice::from_ref(cell),
            Read::Lent(cells) => cells,
        }
    }
}
