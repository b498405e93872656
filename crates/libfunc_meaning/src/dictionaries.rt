//! Dictionaries.

ghost use Rattle.std.specs.Prelude.{◌≡◌, ◌<◌, [], ◌∷◌, map, IfOk};
ghost use Rattle.std.specs.FinMap as finite;
ghost use Rattle.std.specs.List.{AllByRecursion};
ghost use Rattle.std.specs.Option.{unwrap_or};
ghost use Rattle.felt64.specs.Field.{modulus};
ghost use Rattle.type_trees.specs.Ty.{dict, dict_entry, squashed_dict, number, range_check};
ghost use Rattle.libfunc_registry.specs.Dictionaries as registry;
ghost use Rattle.value_trees.specs.Meant.{meant};
ghost use Rattle.value_trees.specs.Of.{AreWords, bound};
ghost use Rattle.value_trees.specs.Val as val;
ghost use Rattle.value_trees.specs.Val.{vals_of};
ghost use Rattle.libfunc_meaning.specs.Dictionaries as dictionaries;
ghost use Rattle.libfunc_meaning.specs.Mapped.{mapped_does};
ghost use Rattle.libfunc_meaning.specs.Placed.{ArePlain, IsAnswer};

use crate::taking::{behind, number_at, take_last};
use felt64::Felt;
use std::alloc::{AllocError, Global};
use std::collections::VecDeque;
use type_trees::Num;
use value_trees::{Value, Words};

/// The dictionary without accesses.
pub(crate) fn dict_new(
    alloc: Global,
    values: Vec<Value>,
    num: Num,
) -> Result<(usize, Vec<Value>), AllocError>
    requires { ArePlain [] (map meant values.items) }
    ensures { IfOk result (IsAnswer (mapped_does (registry.dict_new num) (map meant values.items))) }
{
    Ok((0, behind(values, 0, Value::Dict(Words::new(alloc)))?))
}

/// The entry of a key, open, and its last word, which is 0 at first.
pub(crate) fn entry_get(values: Vec<Value>, num: Num) -> Result<(usize, Vec<Value>), AllocError>
    requires { ArePlain (range_check ∷ dict num ∷ registry.felt ∷ []) (map meant values.items) }
    ensures { IfOk result (IsAnswer (mapped_does (registry.dict_entry_get num) (map meant values.items))) }
{
    let mut values = values;
    let key = take_last(&mut values).as_number().unwrap();
    let dict = take_last(&mut values).into_dict().unwrap();
    let word = word_at(num, &dict, key);
    let values = behind(values, 1, opened_at(dict, key))?;
    Ok((0, behind(values, 2, word)?))
}

/// The last word of a key, which is 0 at first.
#[tactic(auto, using(crate::proofs::DictionariesTypes::found_word))]
fn word_at(num: Num, dict: &Words, key: u64) -> Value
    requires { AreWords num dict.now }
    ensures { meant result ≡ val.number num (unwrap_or (finite.get dict.now key) 0) }
{
    Value::from_number(num, dict.get(key).unwrap_or(0))
}

/// The dictionary with the entry of the key open.
fn opened_at(dict: Words, key: u64) -> Value
    requires { key < modulus }
    ensures { meant result ≡ val.dict_entry (record { map = dict; key = key }) }
{
    let key = Felt::reduce(u128::from(key));
    Value::Entry { dict, key }
}

/// The dictionary with a word in the entry that was open.
pub(crate) fn entry_finalize(
    values: Vec<Value>,
    num: Num,
) -> Result<(usize, Vec<Value>), AllocError>
    requires { ArePlain (dict_entry num ∷ number num ∷ []) (map meant values.items) }
    ensures { IfOk result (IsAnswer (mapped_does (registry.dict_entry_finalize num) (map meant values.items))) }
{
    let mut values = values;
    let word = take_last(&mut values).as_number().unwrap();
    let (mut dict, key) = take_last(&mut values).into_entry().unwrap();
    dict.insert(key.value(), word)?;
    Ok((0, behind(values, 0, Value::Dict(dict))?))
}

/// The dictionary's last words.
pub(crate) fn squashed(values: Vec<Value>, num: Num) -> Result<(usize, Vec<Value>), AllocError>
    requires { ArePlain (range_check ∷ dict num ∷ []) (map meant values.items) }
    ensures { IfOk result (IsAnswer (mapped_does (registry.dict_squash num) (map meant values.items))) }
{
    let mut values = values;
    let dict = take_last(&mut values).into_dict().unwrap();
    Ok((0, behind(values, 1, Value::Squashed(dict))?))
}

/// What is left of each key, in an array, by rising key.
pub(crate) fn entries(
    alloc: Global,
    values: Vec<Value>,
    num: Num,
) -> Result<(usize, Vec<Value>), AllocError>
    requires { ArePlain (squashed_dict num ∷ []) (map meant values.items) }
    ensures { IfOk result (IsAnswer (mapped_does (registry.dict_entries num) (map meant values.items))) }
{
    let mut values = values;
    let words = take_last(&mut values).into_squashed().unwrap();
    let made = listed(alloc, num, words)?;
    Ok((0, behind(values, 0, made)?))
}

/// An array of an access for each key.
fn listed(alloc: Global, num: Num, words: Words) -> Result<Value, AllocError>
    requires { AreWords num words }
    ensures { IfOk result (λ v. meant v ≡ val.array (vals_of (map (dictionaries.entry_of num) (finite.entries words)))) }
{
    let pairs = words.pairs(alloc)?;
    Value::from_elements(alloc, accesses(alloc, num, &pairs)?)
}

/// An access for each key with its word.
fn accesses(alloc: Global, num: Num, pairs: &[(u64, u64)]) -> Result<VecDeque<Value>, AllocError>
    requires { AllByRecursion (λ e. (e.0 < modulus) × (e.1 < bound num)) pairs.now }
    ensures { IfOk result (λ vs. map meant vs.items ≡ map (dictionaries.entry_of num) pairs.now) }
{
    let mut accesses = VecDeque::with_capacity(alloc, pairs.len())?;
    for (key, word) in pairs {
        accesses.push_back(access(alloc, num, *key, *word)?)?;
    }
    Ok(accesses)
}

/// The key, 0 and the word.
fn access(alloc: Global, num: Num, key: u64, word: u64) -> Result<Value, AllocError>
    requires key { key < modulus }
    requires word { word < bound num }
    ensures { IfOk result (λ v. meant v ≡ dictionaries.entry_of num (key, word)) }
{
    let mut members = Vec::with_capacity(alloc, 3)?;
    members.push(Value::Felt(Felt::reduce(u128::from(key))))?;
    members.push(Value::from_number(num, 0))?;
    members.push(Value::from_number(num, word))?;
    Ok(Value::from_members(members))
}
