//! Held variables as a map, for many steps in a row.

ghost use Rattle.std.specs.Prelude.{◌≡◌, ◌↔◌, Some, Err, IfSome, IfNone, IfOk, OnOk, OnErr};
ghost use Rattle.held_list.specs.Held.{IsRising};
ghost use Rattle.held_list.specs.Editing.{take, add};
ghost use Rattle.std.specs.Ordering.{nat_cmp};
ghost use Rattle.std.specs.BTreeMap.{insert_entry};

use crate::held::{AddFault, Held};
use std::alloc::{AllocError, Global};
use std::collections::BTreeMap;
use std::marker::Model;

/// From so many steps in a row on, a map takes less work than a list.
pub const MANY: usize = 32;

/// Held variables on which steps are made one after another: a list, or a map for many steps.
pub trait HeldSteps<A> {
    ghost use Rattle.held_list.specs.Held.{Held as HeldOf};

    // The variables with their payloads.
    ghost held: { Self → HeldOf A };

    /// Takes a variable out, if it is held.
    fn take(&mut self, variable: u64) -> Option<A>
        ensures held { IfSome result (λ a. take variable (held self.old) ≡ Some (a, held self.new)) }
        ensures missing { IfNone result ((take variable (held self.old) ≡ None) × (held self.new ≡ held self.old)) };

    /// Adds a variable at its place.
    fn add(&mut self, variable: u64, payload: A) -> Result<(), AddFault>
        ensures ok { OnOk result (add variable payload (held self.old) ≡ Some (held self.new)) }
        ensures taken { (result ≡ Err AddFault.Taken) ↔ (add variable payload (held self.old) ≡ None) }
        ensures err { OnErr result (held self.new ≡ held self.old) };
}

impl<A: Drop> HeldSteps<A> for Held<A> {
    ghost held = { λ h. h };

    fn take(&mut self, variable: u64) -> Option<A> {
        Held::take(self, variable)
    }

    fn add(&mut self, variable: u64, payload: A) -> Result<(), AddFault> {
        Held::add(self, variable, payload)
    }
}

/// Variables that are held, each with its payload, where many are taken or added one after another.
///
/// Taking a variable out and adding one are logarithmic in what is held, where those of `Held` move what is behind it. To make it
/// of a `Held`, or one of it, is near-linear in what is held.
#[derive(Debug, Drop)]
pub struct HeldMap<A> {
    map: BTreeMap<u64, A>,
}

impl<A> Model for HeldMap<A> {
    ghost use Rattle.std.specs.Prelude.{List, ℕ};
    ghost use Rattle.held_list.specs.Held.{IsRising};

    ghost Value = { List (ℕ × A) };

    ghost view = { λ h. h.map.entries };

    ghost invariant = { λ h. IsRising h.map.entries };
}

impl<A: Drop> HeldSteps<A> for HeldMap<A> {
    ghost held = { λ h. h };

    #[tactic(auto, using(crate::proofs::Maps::take_removes))]
    fn take(&mut self, variable: u64) -> Option<A> {
        self.map.remove(&variable)
    }

    fn add(&mut self, variable: u64, payload: A) -> Result<(), AddFault> {
        if self.map.contains_key(&variable) {
            return Err(AddFault::Taken);
        }
        put(&mut self.map, variable, payload)?;
        Ok(())
    }
}

impl<A: Drop> HeldMap<A> {
    /// The same variables with the same payloads, in a map.
    pub fn of(alloc: Global, held: Held<A>) -> Result<HeldMap<A>, AllocError>
        ensures { IfOk result (λ map. map ≡ held) }
    {
        let mut map = BTreeMap::new(alloc);
        for pair in held.into_pairs() {
            put(&mut map, pair.0, pair.1)?;
        }
        Ok(HeldMap { map })
    }

    /// The same variables with the same payloads, in a list.
    pub fn into_held(self, alloc: Global) -> Result<Held<A>, AllocError>
        ensures { IfOk result (λ held. held ≡ self) }
    {
        Ok(Held::from_rising(pairs_of(alloc, self.map)?))
    }
}

/// Adds a variable to a map, or gives it another payload.
fn put<A: Drop>(map: &mut BTreeMap<u64, A>, variable: u64, payload: A) -> Result<(), AllocError>
    ensures ok { OnOk result (map.new.entries ≡ insert_entry nat_cmp map.old.entries variable payload) }
    ensures err { OnErr result (map.new.entries ≡ map.old.entries) }
{
    map.insert(variable, payload)?;
    Ok(())
}

/// The pairs of a map, in rising order.
fn pairs_of<A: Drop>(alloc: Global, map: BTreeMap<u64, A>) -> Result<Vec<(u64, A)>, AllocError>
    ensures { IfOk result (λ pairs. pairs.items ≡ map.entries) }
{
    let mut map = map;
    let mut pairs = Vec::with_capacity(alloc, map.len())?;
    while let Some(pair) = map.pop_first() {
        pairs.push(pair)?;
    }
    Ok(pairs)
}
