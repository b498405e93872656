//! Held variables as a vector of pairs that rises by variable.

ghost use Rattle.std.specs.Prelude.{◌≡◌, ℕ, ◌+◌, ◌<◌, ◌≤◌, ◌↔◌, [], length, Some, Err, IsSome, IfSome, IfNone, IfOk, OnOk, OnErr, MatchResult};
ghost use Rattle.std.specs.List.{insert};
ghost use Rattle.std.specs.Option.{option_copied};
ghost use Rattle.held_list.specs.Held.{IsRising, get};
ghost use Rattle.held_list.specs.Editing.{take, add, differ};
ghost use Rattle.held_list.specs.Places.{IsAt, IsGap};

use std::alloc::{AllocError, Global};
use std::marker::Model;
use thiserror::Error;

/// Variables that are held, each with its payload, in rising order.
///
/// A look-up is a binary search; taking a variable out and adding one move the pairs behind it.
#[derive(Debug, Drop)]
pub struct Held<A> {
    pairs: Vec<(u64, A)>,
}

impl<A> Model for Held<A> {
    ghost use Rattle.std.specs.Prelude.{List, ℕ};

    ghost Value = { List (ℕ × A) };

    ghost use Rattle.held_list.specs.Held.{IsRising};

    ghost view = { λ h. h.pairs.items };

    ghost invariant = { λ h. IsRising h.pairs.items };
}

/// Why a variable was not added.
#[derive(Clone, Copy, Debug, PartialEq, Eq, Drop, Error)]
pub enum AddFault {
    /// The variable is held already.
    #[error("the variable is held already")]
    Taken,
    /// Memory ran out.
    #[error("out of memory")]
    Memory,
}

impl From<AllocError> for AddFault {
    ghost use Rattle.std.specs.Prelude.{◌≡◌};
    ghost use Rattle.held_list.specs.declared.held.AddFault.TheVariants.{Memory};

    ghost from_gives = { λ _ fault. fault ≡ Memory };

    fn from(_: AllocError) -> AddFault {
        AddFault::Memory
    }
}

impl<A> Held<A> {
    /// Nothing is held. It takes no memory; later calls of `add` take theirs from `alloc`.
    pub fn new(alloc: Global) -> Held<A>
        ensures { result ≡ [] }
    {
        Held {
            pairs: Vec::new(alloc),
        }
    }

    /// These variables with these payloads. It takes no memory.
    pub fn from_rising(pairs: Vec<(u64, A)>) -> Held<A>
        requires { IsRising pairs.items }
        ensures { result ≡ pairs.items }
    {
        Held { pairs }
    }

    /// The variables with their payloads.
    pub fn items(&self) -> &[(u64, A)]
        ensures items { result.now ≡ self.now }
        ensures rising { IsRising self.now }
    {
        &self.pairs
    }

    /// The variables with their payloads, as a vector. It takes no memory.
    pub fn into_pairs(self) -> Vec<(u64, A)>
        ensures items { result.items ≡ self }
        ensures rising { IsRising self }
    {
        self.pairs
    }

    /// The payload of a variable, if it is held.
    pub fn get(&self, variable: u64) -> Option<&A>
        ensures { option_copied result ≡ get variable self.now }
    {
        match place_of(&self.pairs, variable) {
            Ok(at) => Some(&self.pairs[at].1),
            Err(_) => None,
        }
    }

    /// Takes a variable out, if it is held.
    pub fn take(&mut self, variable: u64) -> Option<A>
        ensures held { IfSome result (λ a. take variable self.old ≡ Some (a, self.new)) }
        ensures missing { IfNone result ((take variable self.old ≡ None) × (self.new ≡ self.old)) }
    {
        match place_of(&self.pairs, variable) {
            Ok(at) => Some(self.pairs.remove(at).1),
            Err(_) => None,
        }
    }

    /// The payload of a variable that is held.
    pub fn get_held(&self, variable: u64) -> &A
        requires { IsSome (get variable self.now) }
        ensures { get variable self.now ≡ Some result.now }
    {
        &self.pairs[index_of(&self.pairs, variable)].1
    }

    /// Takes out a variable that is held.
    pub fn take_held(&mut self, variable: u64) -> A
        requires { IsSome (get variable self.old) }
        ensures { take variable self.old ≡ Some (result, self.new) }
    {
        let at = index_of(&self.pairs, variable);
        self.pairs.remove(at).1
    }
}

impl<A: Drop> Held<A> {
    /// Adds a variable at its place.
    pub fn add(&mut self, variable: u64, payload: A) -> Result<(), AddFault>
        ensures ok { OnOk result (add variable payload self.old ≡ Some self.new) }
        ensures taken { (result ≡ Err AddFault.Taken) ↔ (add variable payload self.old ≡ None) }
        ensures err { OnErr result (self.new ≡ self.old) }
    {
        match place_of(&self.pairs, variable) {
            Ok(_) => Err(AddFault::Taken),
            Err(at) => {
                insert_at(&mut self.pairs, at, (variable, payload))?;
                Ok(())
            }
        }
    }
}

impl<A: PartialEq> Held<A> {
    /// The least variable that one of the two doesn't hold or that has unequal payloads. It takes no memory.
    pub fn differ(&self, other: &Held<A>) -> Option<u64>
        ensures { result ≡ differ A.eq self.now other.now }
    {
        first_difference(&self.pairs, &other.pairs)
    }
}

impl<A: Copy> Held<A> {
    /// The same variables with the same payloads.
    pub fn copy(&self) -> Result<Held<A>, AllocError>
        ensures { IfOk result (λ copied. copied ≡ self.now) }
    {
        Ok(Held {
            pairs: Vec::from_slice(*self.pairs.allocator(), &self.pairs)?,
        })
    }
}

impl<A: Clone> Clone for Held<A> {
    ghost use Rattle.held_list.specs.Held.{Each};

    ghost is_clone = { Each A.is_clone };

    fn clone(&self) -> Result<Held<A>, AllocError> {
        Ok(Held {
            pairs: self.pairs.clone()?,
        })
    }
}

/// The index of a variable, or else where it would go.
fn place_of<A>(pairs: &[(u64, A)], variable: u64) -> Result<usize, usize>
    requires { IsRising pairs.now }
    ensures { MatchResult result (IsAt variable pairs.now) (IsGap variable pairs.now) }
{
    pairs.binary_search_by_key(&variable, |pair| pair.0)
}

/// The index of a variable that is held.
fn index_of<A>(pairs: &[(u64, A)], variable: u64) -> usize
    requires rising { IsRising pairs.now }
    requires held { IsSome (get variable pairs.now) }
    ensures { IsAt variable pairs.now result }
{
    pairs.partition_point(|pair| pair.0 < variable)
}

/// Puts a pair at an index.
fn insert_at<A: Drop>(
    pairs: &mut Vec<(u64, A)>,
    at: usize,
    pair: (u64, A),
) -> Result<(), AllocError>
    requires { at ≤ length pairs.old.items }
    ensures ok { OnOk result (pairs.new.items ≡ insert pairs.old.items at pair) }
    ensures err { OnErr result (pairs.new.items ≡ pairs.old.items) }
{
    Ok(pairs.insert(at, pair)?)
}

/// The lower variable of the first pairs that differ, or the first variable behind the end of the shorter list.
fn first_difference<A: PartialEq>(left: &[(u64, A)], right: &[(u64, A)]) -> Option<u64>
    ensures { result ≡ differ A.eq left.now right.now }
{
    let (mut left, mut right) = (left, right);
    while let ([x, xs @ ..], [y, ys @ ..]) = (left, right) {
        if x.0 != y.0 || x.1 != y.1 {
            return Some(x.0.min(y.0));
        }
        (left, right) = (xs, ys);
    }
    Some(left.first().or(right.first())?.0)
}
