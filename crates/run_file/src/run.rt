//! A run as its file holds it.

ghost use Rattle.std.specs.Prelude.{◌≡◌};

use felt64::Felt;
use ro_machine::{Memory, State};
use std::marker::Model;

/// The states of a run, from the first to the last.
#[derive(Debug, Drop)]
pub struct States {
    items: Vec<State>,
}

impl Model for States {
    ghost use Rattle.std.specs.Prelude.{List};
    ghost use Rattle.ro_machine.specs.declared.machine.State.{State};

    ghost Value = { List State };

    ghost view = { λ s. s.items.items };
}

impl States {
    /// These states.
    pub fn new(items: Vec<State>) -> States
        ensures { result ≡ items.items }
    {
        States { items }
    }

    /// The states, in order. It takes no memory.
    pub fn as_slice(&self) -> &[State]
        ensures { result.now ≡ self.now }
    {
        &self.items
    }

    /// The states, in order. It takes no memory.
    pub fn into_vec(self) -> Vec<State>
        ensures { result.items ≡ self }
    {
        self.items
    }
}

/// A run of the Cairo machine, before it is checked.
#[derive(Debug, Drop)]
pub struct Run {
    /// The address of the first range-check cell.
    pub rc: Felt,
    /// The cells with their words.
    pub memory: Memory,
    /// The state before each step, and the state after the last one.
    pub states: States,
}
