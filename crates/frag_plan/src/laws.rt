//! Laws of plans. A law is a function without code, whose contract says what holds.

ghost use Rattle.std.specs.Prelude.{◌↔◌, ℕ, List, Option, IsTrue};
ghost use Rattle.casm_word.specs.declared.cell_expr.CellExpr.{CellExpr};
ghost use Rattle.frag_code.specs.Evaluation.{Tally, Evaluation, nothing};
ghost use Rattle.frag_code.specs.Form.{has_jump, hints_met, shape};
ghost use Rattle.frag_plan.specs.Plan.{Plan, asks_met, fragment};
ghost use Rattle.frag_plan.specs.Scene.{Along, LineHolds, SlotListed, scene_of};

/// An evaluation of a plan's fragment is a way through the plan whose lines hold of the listed words, with the same exit and
/// counts.
pub fn plans_evaluate()
    ensures { (m : ℕ → Option ℕ) (ap fp k : ℕ) (end : Tally) (args : List CellExpr) (p : Plan) →
        Evaluation (fragment args p) m ap fp k end
        ↔ Along (scene_of m ap fp args) (has_jump (fragment args p)) (LineHolds m ap fp args (scene_of m ap fp args)) (SlotListed m ap fp args (scene_of m ap fp args)) p nothing k end }
{}

/// The fragment of a plan has the shape of well-formed fragments where no query is followed by an exit.
pub fn plans_are_shaped()
    ensures { (args : List CellExpr) (p : Plan) → IsTrue (asks_met p) → IsTrue (shape (has_jump (fragment args p)) 0 (fragment args p)) }
{}

/// No jump of a plan's fragment passes over a query that is asked at the jump's target.
pub fn plans_meet_hints()
    ensures { (args : List CellExpr) (p : Plan) → IsTrue (asks_met p) → IsTrue (hints_met 0 (fragment args p)) }
{}
