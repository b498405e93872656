//! Declared types by position, and what is told of each.

/// A declared type, by its position in the list of types, from 0.
#[derive(Clone, Copy, Debug, PartialEq, Eq, PartialOrd, Ord, Hash, Drop)]
pub struct TypeId(pub usize);

/// What is told of a type.
#[derive(Clone, Copy, Debug, PartialEq, Eq, Drop)]
pub struct TypeInfo {
    /// The number of cells of a value, at most `2^14`.
    pub size: u32,
    /// Whether values may be stored in cells.
    pub storable: bool,
    /// Whether values may be dropped.
    pub drop: bool,
    /// Whether values may be duplicated.
    pub dup: bool,
    /// Whether values take no cell.
    pub zero_sized: bool,
    /// Whether a dictionary, or an open entry of one, is in a value.
    pub holds_dict: bool,
}
