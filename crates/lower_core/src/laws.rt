//! Laws of the lowerings. A law is a function without code, whose contract says what holds.

ghost use Rattle.std.specs.Prelude.{ℕ, List};
ghost use Rattle.casm_word.specs.declared.cell_expr.CellExpr.{CellExpr};
ghost use Rattle.libfunc_registry.specs.Fam.{Fam};
ghost use Rattle.lower_kit.specs.Fitting.{Takes};
ghost use Rattle.lower_kit.specs.Logged.{logged};
ghost use Rattle.lower_kit.specs.Lowers.{Lowers};
ghost use Rattle.lower_core.specs.Core.{IsCore, core_fragment};

/// The fragment of each libfunc meets the lowering contract: over expressions that fit the libfunc it is well formed, it counts as
/// its row says, it is sound, it hands a range-check token on as the row says, and an honest run comes through it.
pub fn core_lowerings()
    ensures { (fam : Fam) (args : List CellExpr) (amount : ℕ) → IsCore fam → Takes fam args amount → Lowers logged fam args amount (core_fragment args amount fam) }
{}
