//! What is asked of the expressions of an argument.

/// What a libfunc asks of the expressions of an argument's cells.
#[derive(Clone, Copy, Debug, PartialEq, Eq, Drop)]
pub enum Mark {
    /// Nothing.
    Any,
    /// Each is a cell.
    Cells,
    /// Each is a cell or a number.
    CellOrNumber,
    /// The first is a cell: the index of an enum's variant.
    FirstCell,
    /// The second is a cell: the end of an array.
    SecondCell,
}
