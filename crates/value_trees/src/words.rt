//! Maps from keys to words, as dictionaries have them.

ghost use Rattle.std.specs.Prelude.{◌≡◌, IfOk, OnOk, OnErr};
ghost use Rattle.std.specs.FinMap as map;
ghost use Rattle.std.specs.List.Sorted.{IsStrictlySortedBy};
ghost use Rattle.std.specs.Map.{keys_of};
ghost use Rattle.std.specs.Ordering.{nat_cmp};

use std::alloc::{AllocError, Global};
use std::collections::BTreeMap;
use std::marker::Model;

/// Words by their keys. Contracts see it as a finite map.
#[derive(Debug, Drop)]
pub struct Words {
    words: BTreeMap<u64, u64>,
}

impl Model for Words {
    ghost use Rattle.std.specs.Coded.{coded_ℕ};
    ghost use Rattle.std.specs.FinMap.{code, from_entries};
    ghost use Rattle.value_trees.specs.Val.{WordMap};

    ghost Value = { WordMap };

    ghost coded = { code coded_ℕ coded_ℕ };

    ghost view = { λ a. from_entries a.words.entries };
}

impl Words {
    /// No words. It takes no memory; later calls of `insert` take theirs from `alloc`.
    pub fn new(alloc: Global) -> Words
        ensures { result ≡ map.empty }
    {
        Words {
            words: BTreeMap::new(alloc),
        }
    }

    /// The word of a key.
    pub fn get(&self, key: u64) -> Option<u64>
        ensures { result ≡ map.get self.now key }
    {
        self.words.get(&key).copied()
    }

    /// Gives a key a word, in place of the one that it has.
    pub fn insert(&mut self, key: u64, word: u64) -> Result<(), AllocError>
        ensures ok { OnOk result (self.new ≡ map.insert self.old key word) }
        ensures err { OnErr result (self.new ≡ self.old) }
    {
        self.words.insert(key, word)?;
        Ok(())
    }

    /// How many keys have a word.
    pub fn len(&self) -> usize
        ensures { result ≡ map.len self.now }
    {
        self.words.len()
    }

    /// The keys with their words, by rising key.
    pub fn pairs(&self, alloc: Global) -> Result<Vec<(u64, u64)>, AllocError>
        ensures { IfOk result (λ ps. ps.items ≡ map.entries self.now) }
    {
        pairs_of(&self.words, alloc)
    }

    /// A copy of the words.
    pub fn copy(&self) -> Result<Words, AllocError>
        ensures { IfOk result (λ copy. copy ≡ self.now) }
    {
        Ok(Words {
            words: self.words.clone()?,
        })
    }
}

fn pairs_of(words: &BTreeMap<u64, u64>, alloc: Global) -> Result<Vec<(u64, u64)>, AllocError>
    ensures pairs { IfOk result (λ ps. ps.items ≡ words.now.entries) }
    ensures rising { IsStrictlySortedBy nat_cmp (keys_of words.now.entries) }
{
    let mut pairs = Vec::with_capacity(alloc, words.len())?;
    for (key, word) in words {
        pairs.push((*key, *word))?;
    }
    Ok(pairs)
}
