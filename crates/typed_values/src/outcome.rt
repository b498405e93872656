//! What a run shows.

use value_trees::Value;

/// What main gave.
#[derive(Debug, Drop)]
pub struct Outcome {
    /// Whether main panicked.
    pub panic: bool,
    /// What it gave: the results that are no builtins, or the payload of a panic result.
    pub values: Vec<Value>,
    /// The gas that was left.
    pub gas_left: u64,
    /// The gas that was used.
    pub gas_used: u64,
}

/// An outcome, with the steps and the range checks of the run that shows it.
#[derive(Debug, Drop)]
pub struct Verdict {
    /// What main gave.
    pub outcome: Outcome,
    /// The steps of the run.
    pub steps: u64,
    /// The range checks of the run.
    pub checks: u64,
}
