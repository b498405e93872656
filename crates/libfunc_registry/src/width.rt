//! The widths of integers.

ghost use Rattle.std.specs.Prelude.{◌≡◌};
ghost use Rattle.libfunc_registry.specs.Arguments as arguments;

use type_trees::Num;

/// The type of integers that a libfunc is for: the W of its generic name.
#[derive(Clone, Copy, Debug, PartialEq, Eq, Drop)]
pub enum Width {
    /// `u8`.
    W8,
    /// `u16`.
    W16,
    /// `u32`.
    W32,
}

impl Width {
    /// How many bits an integer has.
    pub fn bits(self) -> u32
        ensures { result ≡ arguments.bits self }
    {
        match self {
            Width::W8 => 8,
            Width::W16 => 16,
            Width::W32 => 32,
        }
    }

    /// The type of the integers.
    pub fn num(self) -> Num
        ensures { result ≡ arguments.num_of self }
    {
        match self {
            Width::W8 => Num::U8,
            Width::W16 => Num::U16,
            Width::W32 => Num::U32,
        }
    }
}
