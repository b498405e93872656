//! Values laid: the words of cells in which values stand.

ghost use Rattle.std.specs.Prelude.{◌≡◌, ◌<◌, ◌++◌, [], ◌∷◌, ℕ, IfOk, IsTrue, OnOk, Option, Some, false, drop, length, map, replicate, slice_get};
ghost use Rattle.std.specs.List.{All};
ghost use Rattle.type_trees.specs.Ty.{is_plain, holds_array};
ghost use Rattle.type_table.specs.View.{tree_of, trees_of};
ghost use Rattle.value_trees.specs.Meant.{meant};
ghost use Rattle.value_trees.specs.Of.{AllOf, AreWords, IsOpenMap};
ghost use Rattle.value_trees.specs.Val as val;
ghost use Rattle.value_trees.specs.Val.{vals_of};
ghost use Rattle.cell_forms.specs.Laying.{laid, laid_each};
ghost use Rattle.cell_forms.specs.Standing.{AllPlainStand};
ghost use Rattle.cell_forms.specs.Standing.Padding.{zeros};

use felt64::Felt;
use std::alloc::{AllocError, Global};
use type_table::{TypeId, Types};
use value_trees::Value;

/// The argument words of main's values, one value after another; each word of padding is 0. Arrays aren't built yet: their
/// elements stand in further cells.
#[tactic(auto)]
pub fn lay(
    alloc: Global,
    values: &[Value],
    t: &Types,
    args: &[TypeId],
) -> Result<Vec<Felt>, AllocError>
    requires below { All (λ a. a.0 < length t.now.rows) args.now }
    requires plain { All (λ a. IsTrue (is_plain (tree_of t.now a.0))) args.now }
    requires no_array { All (λ a. holds_array (tree_of t.now a.0) ≡ false) args.now }
    requires typed { AllOf AreWords IsOpenMap (trees_of t.now args.now) (map meant values.now) }
    ensures { IfOk result (λ words. (m : ℕ → Option ℕ) → AllPlainStand zeros m (trees_of t.now args.now) (map Some words.items) (map meant values.now)) }
{
    let mut words = Vec::new(alloc);
    push_each(&mut words, values, t, args)?;
    Ok(words)
}

/// The words of a value.
#[cycle(lay)]
#[tactic(auto, unfolding(crate::specs::Laying::laid))]
fn push_value(words: &mut Vec<Felt>, value: &Value, t: &Types, ty: TypeId) -> Result<(), AllocError>
    requires { ty.0 < length t.now.rows }
    ensures { OnOk result (words.new.items ≡ words.old.items ++ laid (meant value.now) (tree_of t.now ty.0)) }
{
    match value {
        Value::Felt(n) => push_word(words, *n),
        Value::Int { n, .. } => push_word(words, Felt::from(*n)),
        Value::Struct(members) => push_each(words, members, t, t.members(ty)),
        Value::Enum { index, value } => push_variant(words, *index, value, t, ty),
        _ => Ok(()),
    }
}

/// The words of an enum: the index of its variant, then padding, then the payload.
#[cycle(lay)]
fn push_variant(
    words: &mut Vec<Felt>,
    index: u32,
    payload: &Value,
    t: &Types,
    ty: TypeId,
) -> Result<(), AllocError>
    requires { ty.0 < length t.now.rows }
    ensures { OnOk result (words.new.items ≡ words.old.items ++ laid (val.enum index (meant payload.now)) (tree_of t.now ty.0)) }
{
    push_word(words, Felt::from(index))?;
    let variants = t.members(ty);
    if index as usize >= variants.len() {
        return Ok(());
    }
    let variant = variants[index as usize];
    let taken = 1 + t.info(variant).size as u64;
    let padding = (t.info(ty).size as u64).saturating_sub(taken);
    push_payload(words, padding, payload, t, variant)
}

/// So many words of padding, and behind them those of a payload.
#[cycle(lay)]
fn push_payload(
    words: &mut Vec<Felt>,
    padding: u64,
    payload: &Value,
    t: &Types,
    ty: TypeId,
) -> Result<(), AllocError>
    requires { ty.0 < length t.now.rows }
    ensures { OnOk result (words.new.items ≡ (words.old.items ++ replicate padding 0) ++ laid (meant payload.now) (tree_of t.now ty.0)) }
{
    push_padding(words, padding)?;
    push_value(words, payload, t, ty)
}

/// One word more.
fn push_word(words: &mut Vec<Felt>, word: Felt) -> Result<(), AllocError>
    ensures { OnOk result (words.new.items ≡ words.old.items ++ word ∷ []) }
{
    words.push(word)?;
    Ok(())
}

/// So many words of padding.
fn push_padding(words: &mut Vec<Felt>, count: u64) -> Result<(), AllocError>
    ensures { OnOk result (words.new.items ≡ words.old.items ++ replicate count 0) }
{
    for _ in 0..count {
        push_word(words, Felt::from(0))?;
    }
    Ok(())
}

/// The words of values, one after another.
#[cycle(lay)]
fn push_each(
    words: &mut Vec<Felt>,
    values: &[Value],
    t: &Types,
    ids: &[TypeId],
) -> Result<(), AllocError>
    requires { All (λ a. a.0 < length t.now.rows) ids.now }
    ensures { OnOk result (words.new.items ≡ words.old.items ++ laid_each (vals_of (map meant values.now)) (trees_of t.now ids.now)) }
{
    let mut rest = ids;
    for value in values {
        if rest.is_empty() {
            return Ok(());
        }
        push_value(words, value, t, rest[0])?;
        rest = behind_first(rest);
    }
    Ok(())
}

/// The types behind the first one.
fn behind_first(ids: &[TypeId]) -> &[TypeId]
    requires { 0 < length ids.now }
    ensures { result.now ≡ drop 1 ids.now }
{
    &ids[1..]
}
