//! Laws on values of types.

ghost use Rattle.std.specs.Prelude.{◌≡◌, List, ◌++◌};
ghost use Rattle.type_trees.specs.Ty.{Ty};
ghost use Rattle.value_trees.specs.Of.{AreWords, IsOpenMap, AllOf};
ghost use Rattle.value_trees.specs.Val.{Plain};

/// Values of types, and values of further types behind them, are values of all these types; and such values fall apart so.
pub fn values_of_both()
    ensures together { (ts us : List Ty) (vs ws : List Plain) → AllOf AreWords IsOpenMap ts vs → AllOf AreWords IsOpenMap us ws → AllOf AreWords IsOpenMap (ts ++ us) (vs ++ ws) }
    ensures apart { (ts us : List Ty) (xs : List Plain) → AllOf AreWords IsOpenMap (ts ++ us) xs → (vs ws : List Plain) × (xs ≡ vs ++ ws) × AllOf AreWords IsOpenMap ts vs × AllOf AreWords IsOpenMap us ws }
{}
