//! What an accepted run shows: values, an outcome and a verdict. The judgement makes a verdict, and the output prints it.

ghost use Rattle.std.specs.Prelude.{◌≡◌, [], ◌∷◌, IfOk};

use felt64::Felt;
use std::alloc::{AllocError, Global};
use std::marker::Model;

/// A value that a program takes or gives.
#[derive(Clone, Copy, Debug, PartialEq, Eq)]
pub enum Value {
    /// A number of the field.
    Felt(Felt),
}

/// The values that a program gives, in order.
#[derive(Debug, Drop)]
pub struct Values {
    items: Vec<Value>,
}

impl Model for Values {
    ghost use Rattle.std.specs.Prelude.{List};
    ghost use Rattle.first_form.specs.declared.verdict.Value.{Value as Item};

    ghost Value = { List Item };

    ghost view = { λ v. v.items.items };
}

impl Values {
    /// These values.
    pub fn new(items: Vec<Value>) -> Values
        ensures { result ≡ items.items }
    {
        Values { items }
    }

    /// This value alone.
    pub fn one(alloc: Global, value: Value) -> Result<Values, AllocError>
        ensures { IfOk result (λ values. values ≡ value ∷ []) }
    {
        let mut items = Vec::new(alloc);
        items.push(value)?;
        Ok(Values::new(items))
    }

    /// The values, in order. It takes no memory.
    pub fn as_slice(&self) -> &[Value]
        ensures { result.now ≡ self.now }
    {
        &self.items
    }
}

/// The result of a run, in values and gas.
#[derive(Debug, Drop)]
pub struct Outcome {
    /// Whether the program panicked.
    pub panic: bool,
    /// The values that it gave.
    pub values: Values,
    /// The gas that was not used.
    pub gas_left: u64,
    /// The gas that was used.
    pub gas_used: u64,
}

/// An outcome, and what the run that shows it took.
#[derive(Debug, Drop)]
pub struct Verdict {
    /// The result of the run.
    pub outcome: Outcome,
    /// How many steps the run has.
    pub steps: u64,
    /// How many range checks it made.
    pub checks: u64,
}
