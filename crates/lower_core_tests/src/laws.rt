//! Laws of what `emit` asks of the fragments that the tests run. A law is a function without code, whose contract says what
//! holds.

ghost use Rattle.std.specs.Prelude.{◌≤◌, ◌+◌, ◌^◌, ℕ, List, IsTrue, length};
ghost use Rattle.std.specs.List.{All};
ghost use Rattle.casm_word.specs.declared.cell_expr.CellExpr.{CellExpr};
ghost use Rattle.frag_code.specs.declared.piece.Piece.{Piece};
ghost use Rattle.frag_code.specs.Emit.{cells_of_code};
ghost use Rattle.frag_code.specs.Form.{has_jump, shape};
ghost use Rattle.frag_code.specs.Meaning.{AreEntries};
ghost use Rattle.libfunc_registry.specs.Fam.{Fam};
ghost use Rattle.lower_core.specs.Core.{core_fragment};
ghost use Rattle.lower_core_tests.specs.Led.{IsLed};

/// The fragment of each libfunc has the shape of well-formed fragments.
pub(crate) fn core_is_shaped()
    ensures { (args : List CellExpr) (amount : ℕ) (fam : Fam) → IsTrue (shape (has_jump (core_fragment args amount fam)) 0 (core_fragment args amount fam)) }
{}

/// The code of so few pieces fits behind the cell 100.
pub(crate) fn codes_are_short()
    ensures { (f : List Piece) → length f ≤ 1000 → 100 + cells_of_code f ≤ 2 ^ 25 }
{}

/// The branches of pieces that lead to entries have them.
pub(crate) fn pieces_are_led()
    ensures { (f : List Piece) (exits : List ℕ) → All (IsLed exits) f → AreEntries f exits }
{}
