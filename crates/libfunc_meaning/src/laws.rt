//! Laws about what libfuncs do, without code. The meaning of a program stands on them: a family of a signature answers what is
//! of its types, and in one way.

ghost use Rattle.std.specs.Prelude.{◌≡◌, ℕ, List};
ghost use Rattle.type_table.specs.View.{TypesView};
ghost use Rattle.libfunc_registry.specs.declared.sig.Sig.{Sig};
ghost use Rattle.libfunc_registry.specs.Fam.{Fam, fam_of, takes, gives};
ghost use Rattle.value_trees.specs.Of.{AreWords, IsOpenMap};
ghost use Rattle.value_trees.specs.Val.{Plain};
ghost use Rattle.libfunc_meaning.specs.Applying.{IsSignature, AreShort};
ghost use Rattle.libfunc_meaning.specs.Dictionaries.{mapped};
ghost use Rattle.libfunc_meaning.specs.Do.{Do};
ghost use Rattle.libfunc_meaning.specs.Kept.{AreOfBranch};
ghost use Rattle.libfunc_meaning.specs.Placed.{ArePlain};
ghost use Rattle.libfunc_meaning.specs.Proper.{IsAsked, IsProper, IsNoCall, IsCounted};

/// The family of a signature is proper.
pub fn declared_is_proper()
    ensures { (types : TypesView) (sig : Sig) → IsSignature types sig → IsProper (fam_of types sig.libfunc) }
{}

/// An array among short values is one whose length can be told.
pub fn short_is_counted()
    ensures { (fam : Fam) (vs : List Plain) → AreShort vs → IsCounted fam vs }
{}

/// With values of the types that it takes, every family but a call takes a branch.
pub fn never_stuck()
    ensures { (fam : Fam) (vs : List Plain) (amount : ℕ) → IsProper fam → IsNoCall fam → ArePlain (takes fam) vs → (k : ℕ) × (outs : List Plain) × Do mapped fam vs amount k outs }
{}

/// It takes one branch, and gives the same results each time.
pub fn one_answer()
    ensures { (fam : Fam) (vs : List Plain) (amount j k : ℕ) (us outs : List Plain) → Do mapped fam vs amount j us → Do mapped fam vs amount k outs → (j ≡ k) × (us ≡ outs) }
{}

/// The results are of the types of the branch.
pub fn types_are_kept()
    ensures { (fam : Fam) (vs : List Plain) (amount k : ℕ) (outs : List Plain) → IsAsked fam vs → ArePlain (takes fam) vs → Do mapped fam vs amount k outs → AreOfBranch AreWords IsOpenMap (gives fam) k outs }
{}
