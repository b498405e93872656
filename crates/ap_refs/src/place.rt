//! What is known where a statement begins.

use crate::cells::Cells;
use held_list::Held;

/// The local state of a function.
#[derive(Clone, Copy, Debug, PartialEq, Eq, Drop)]
pub enum Locals {
    /// No local is placed yet.
    Before,
    /// Locals are being placed.
    Allocating {
        /// The offset from fp of the first cell of the locals.
        start: u64,
        /// How many cells the locals have so far.
        cells: u64,
    },
    /// The cells of all locals are reserved.
    Done,
}

/// What is known where a statement begins.
#[derive(Debug, Drop)]
pub struct Place {
    /// The cells of the variables that are held.
    pub cells: Held<Cells>,
    /// How far ap is from where it was at the function's begin, and none where nobody knows.
    pub ap: Option<u64>,
    /// The local state.
    pub locals: Locals,
}
