//! Gas plans.

ghost use Rattle.std.specs.Prelude.{◌≡◌, ◌<◌, Some, length, slice_index};
ghost use Rattle.std.specs.List.{slice_get};

use std::marker::Model;

/// What each statement needs, what each `withdraw_gas` takes, and what a run needs to begin, in gas.
#[derive(Debug, Drop)]
pub struct GasPlan {
    need: Vec<u64>,
    amount: Vec<Option<u64>>,
    entry: u64,
}

impl Model for GasPlan {
    ghost use Rattle.std.specs.Prelude.{◌≡◌, length};
    ghost use Rattle.gas_solver.specs.Plans.{PlanView};

    ghost Value = { PlanView };

    ghost view = { λ plan. record { need = plan.need.items; amount = plan.amount.items; entry = plan.entry } };

    ghost invariant = { λ plan. length plan.amount.items ≡ length plan.need.items };
}

impl GasPlan {
    /// Puts these lists into this form.
    pub(crate) fn new(need: Vec<u64>, amount: Vec<Option<u64>>, entry: u64) -> GasPlan
        requires { length amount.items ≡ length need.items }
        ensures need { result.need ≡ need.items }
        ensures amount { result.amount ≡ amount.items }
        ensures entry { result.entry ≡ entry }
    {
        GasPlan {
            need,
            amount,
            entry,
        }
    }

    /// The number of statements.
    pub fn len(&self) -> usize
        ensures need { result ≡ length self.now.need }
        ensures amount { result ≡ length self.now.amount }
    {
        self.need.len()
    }

    /// What the statement needs before it runs.
    pub fn need(&self, statement: usize) -> u64
        requires { statement < length self.now.need }
        ensures { result ≡ slice_index self.now.need statement }
    {
        self.need[statement]
    }

    /// What the statement takes if it is a `withdraw_gas` that succeeds; nothing at other statements.
    pub fn amount(&self, statement: usize) -> Option<u64>
        requires { statement < length self.now.need }
        ensures { slice_get self.now.amount statement ≡ Some result }
    {
        self.amount[statement]
    }

    /// What a run needs to begin: the gas of main's call and of what main's entry needs.
    pub fn entry(&self) -> u64
        ensures { result ≡ self.now.entry }
    {
        self.entry
    }
}
