//! Laws of lowerings. A law is a function without code, whose contract says what holds.

ghost use Rattle.std.specs.Prelude.{◌≡◌, ◌<◌, ◌^◌, ℕ, Option, List, map};
ghost use Rattle.std.specs.List.{All};
ghost use Rattle.felt64.specs.Field.{sum};
ghost use Rattle.casm_word.specs.declared.cell_expr.CellExpr.{CellExpr};
ghost use Rattle.casm_steps.specs.Reading.{readings};
ghost use Rattle.cell_terms.specs.declared.term.Term.{Term};
ghost use Rattle.cell_terms.specs.Resolving.{resolve};
ghost use Rattle.type_table.specs.View.{TypesView, IsTable};
ghost use Rattle.libfunc_registry.specs.declared.sig.Sig.{Sig};
ghost use Rattle.libfunc_registry.specs.Fam.{fam_of};
ghost use Rattle.cost_table.specs.Fits.{IsCloseExpr, IsSignature};
ghost use Rattle.frag_plan.specs.AtBegin.{at_begin};
ghost use Rattle.lower_kit.specs.Fitting.{IsAsDeclared};

/// The expressions of terms, named once ap has moved, read what the terms read at the begin.
pub fn terms_are_read()
    ensures { (m : ℕ → Option ℕ) (ap fp d : ℕ) (args : List CellExpr) (ts : List Term) → d < 2 ^ 62 → All IsCloseExpr args →
        readings m (sum ap d) fp (map (resolve d args) ts) ≡ map (at_begin m ap fp args) ts }
{}

/// The family of a signature is as `Takes` asks of a declared one, where the types are those of a table: its arguments besides
/// types are as they may be written, the types that it takes and gives have at most `2^14` cells, those that it gives meet what is
/// asked of type arguments, and it has at most `2^24` branches.
pub fn declared_families()
    ensures { (types : TypesView) (sig : Sig) → IsTable types → IsSignature types sig → IsAsDeclared (fam_of types sig.libfunc) }
{}
