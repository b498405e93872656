//! Names of cells, and terms over them.

/// A cell by name.
#[derive(Clone, Copy, Debug, PartialEq, Eq, Drop)]
pub enum Slot {
    /// So many cells from where ap was at the begin.
    Own(u64),
    /// The cell that the argument expression of this number is, from 0.
    Arg(usize),
    /// So many cells from fp.
    Frame(u64),
}

/// A second operand.
#[derive(Clone, Copy, Debug, PartialEq, Eq, Drop)]
pub enum Second {
    /// The word of a cell.
    Slot(Slot),
    /// A number of the field.
    Number(u64),
}

/// A word by name. Sums, differences and products are the field's.
#[derive(Clone, Copy, Debug, PartialEq, Eq, Drop)]
pub enum Term {
    /// The word of the argument expression of this number, from 0.
    Whole(usize),
    /// The word of a cell.
    Cell(Slot),
    /// The word of the cell so many cells behind where a cell points.
    Behind(Slot, u64),
    /// A number of the field.
    Word(u64),
    /// The sum of a cell's word and the operand.
    Add(Slot, Second),
    /// The difference of a cell's word and the operand.
    Sub(Slot, Second),
    /// The product of a cell's word and the operand.
    Mul(Slot, Second),
}
