//! What is kept of a type while the table is made.

/// One cell more than a type may have.
pub(crate) const TOO_MANY_CELLS: u32 = 16385;

/// One more than the depth that a type may have.
pub(crate) const TOO_DEEP: u32 = 257;

/// What is kept of a type while the table is made.
#[derive(Clone, Copy, Debug, Drop)]
pub(crate) struct Facts {
    /// The number of cells, or `TOO_MANY_CELLS` if there are more.
    pub size: u32,
    /// Whether values may be stored in cells.
    pub storable: bool,
    /// Whether values may be dropped.
    pub drop: bool,
    /// Whether values may be duplicated.
    pub dup: bool,
    /// Whether a dictionary, or an open entry of one, is in a value.
    pub holds_dict: bool,
    /// The depth, or `TOO_DEEP` if it is greater.
    pub depth: u32,
    /// Whether an array is in the type, at any depth.
    pub holds_array: bool,
    /// Whether main may take and give it.
    pub plain: bool,
}
