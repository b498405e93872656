//! The types of numbers, by which `NonZero`, constants and dictionaries are named.

/// A type of numbers: the field, or an integer of 8, 16 or 32 bits.
#[derive(Clone, Copy, Debug, PartialEq, Eq, Hash, Drop)]
pub enum Num {
    /// `felt64`: the numbers below `P`.
    Felt64,
    /// `u8`.
    U8,
    /// `u16`.
    U16,
    /// `u32`.
    U32,
}
