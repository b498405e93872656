//! Laws of the table. A law is a function without code, whose contract says what holds.

ghost use Rattle.std.specs.Prelude.{◌≡◌, ◌⊎◌, ◌<◌, ◌≤◌, ◌*◌, ◌^◌, ℕ, List, length};
ghost use Rattle.std.specs.List.{All};
ghost use Rattle.casm_word.specs.Expressions.{IsExprInField};
ghost use Rattle.casm_word.specs.declared.cell_expr.CellExpr.{CellExpr};
ghost use Rattle.type_table.specs.View.{TypesView, IsTable};
ghost use Rattle.libfunc_registry.specs.declared.sig.Sig.{Sig};
ghost use Rattle.libfunc_registry.specs.Control.{jump};
ghost use Rattle.libfunc_registry.specs.Fam.{Fam, control, fam_of, gives};
ghost use Rattle.cost_table.specs.Costs.{charge, row_of};
ghost use Rattle.cost_table.specs.Fits.{IsSignature};
ghost use Rattle.cost_table.specs.NewCells.{AreLast};
ghost use Rattle.cost_table.specs.Results.{branch_types, cells_of, moved_by, result_terms, results};
ghost use Rattle.cost_table.specs.Terms.{known_change};

/// A branch that isn't free is charged 10 or more.
pub fn free_or_ten()
    ensures { (fam : Fam) (branch : ℕ) → (charge fam branch ≡ 0) ⊎ (10 ≤ charge fam branch) }
{}

/// A jump, and each branch of a libfunc with several, is charged 100 or more. So what is free falls through to the next
/// statement.
pub fn leaving_is_charged()
    ensures jumps { (branch : ℕ) → 100 ≤ charge (control jump) branch }
    ensures branches { (fam : Fam) (branch : ℕ) → 1 < length (gives fam) → 100 ≤ charge fam branch }
{}

/// Each cell that a branch is known to move ap by is charged 10 or more.
pub fn moves_are_charged()
    ensures { (fam : Fam) (branch : ℕ) → 10 * known_change (row_of fam branch).ap ≤ charge fam branch }
{}

/// A branch that is known to move ap moves it by at most `2^14` cells, or by fewer cells than there are branches.
pub fn moves_are_few()
    ensures { (types : TypesView) (sig : Sig) (branch : ℕ) → IsTable types → IsSignature types sig →
        (known_change (row_of (fam_of types sig.libfunc) branch).ap ≤ 2 ^ 14)
        ⊎ (known_change (row_of (fam_of types sig.libfunc) branch).ap < length (gives (fam_of types sig.libfunc))) }
{}

/// The new cells of a branch, in the order of its results, are the last cells below ap after it.
pub fn new_cells_are_last()
    ensures { (args : List CellExpr) (amount : ℕ) (fam : Fam) (branch : ℕ) → branch < length (gives fam) →
        AreLast (moved_by fam branch) (result_terms args amount fam branch) }
{}

/// A branch's results have as many expressions as their types have cells.
pub fn results_have_their_cells()
    ensures { (types : TypesView) (sig : Sig) (args : List CellExpr) (amount branch : ℕ) → IsSignature types sig → branch < length sig.branches →
        length (results args amount (fam_of types sig.libfunc) branch) ≡ cells_of (branch_types (fam_of types sig.libfunc) branch) }
{}

/// Numbers among a branch's results are below the field's order if those among the arguments are.
pub fn results_are_in_field()
    ensures { (types : TypesView) (sig : Sig) (args : List CellExpr) (amount branch : ℕ) → IsTable types → IsSignature types sig →
        All IsExprInField args → All IsExprInField (results args amount (fam_of types sig.libfunc) branch) }
{}
