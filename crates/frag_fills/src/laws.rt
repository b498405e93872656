//! Laws of fillings. A law is a function without code, whose contract says what holds.

ghost use Rattle.std.specs.Prelude.{ℕ, List};
ghost use Rattle.std.specs.FinMap.{get};
ghost use Rattle.casm_word.specs.declared.cell_expr.CellExpr.{CellExpr};
ghost use Rattle.ro_machine.specs.Cells.{Cells};
ghost use Rattle.ro_machine.specs.Extends.{Extends};
ghost use Rattle.hint_source.specs.Remembered.{Remembered};
ghost use Rattle.frag_code.specs.declared.piece.Piece.{Piece};
ghost use Rattle.frag_code.specs.Evaluation.{Evaluation, nothing};
ghost use Rattle.frag_code.specs.Form.{has_jump};
ghost use Rattle.frag_plan.specs.Plan.{Plan, fragment};
ghost use Rattle.frag_fills.specs.Filling.{Filled, Filling};
ghost use Rattle.frag_fills.specs.Lines.{PlanFills};

/// A filling is an evaluation over the cells that it comes to.
pub fn fillings_evaluate()
    ensures { (f : List Piece) (ap fp k : ℕ) (r : Remembered) (m : Cells) (z : Filled) → Filling f ap fp r m k z → Evaluation f (get z.cells) ap fp k z.end }
{}

/// A filling keeps each word that was there.
pub fn fillings_keep_words()
    ensures { (f : List Piece) (ap fp k : ℕ) (r : Remembered) (m : Cells) (z : Filled) → Filling f ap fp r m k z → Extends (get m) (get z.cells) }
{}

/// Where the lines of a plan fill cells, its fragment does.
pub fn plans_fill()
    ensures { (args : List CellExpr) (p : Plan) (ap fp k : ℕ) (r : Remembered) (m : Cells) (z : Filled) →
        PlanFills ap fp args (has_jump (fragment args p)) p nothing r m k z → Filling (fragment args p) ap fp r m k z }
{}
