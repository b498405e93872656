//! What a branch costs, as it is told.

/// How far a branch moves ap.
#[derive(Clone, Copy, Debug, PartialEq, Eq, Drop)]
pub enum ApChange {
    /// Up by so many cells.
    Known(u32),
    /// By a number of cells that isn't known before the program runs.
    Unknown,
}

/// What a branch costs: 100 gas for each step, 70 for each range check and 10 for each hole.
#[derive(Clone, Copy, Debug, PartialEq, Eq, Drop)]
pub struct Cost {
    /// Steps, a share of the squash of a dictionary included.
    pub steps: u32,
    /// Range checks, a share of the squash included.
    pub checks: u32,
    /// Cells that are left unused.
    pub holes: u32,
    /// How far ap moves. That `finalize_locals` moves it by the cells of the locals is not in it.
    pub ap: ApChange,
}
