//! Parts of a program that are printed, and lists of them.

ghost use Rattle.std.specs.Prelude.{◌≡◌, ◌++◌, ◌<◌, ◌^◌, ℕ, List, OnOk};
ghost use Rattle.std.specs.List.{All, join_by};
ghost use Rattle.std.specs.Str.{IsAscii};
ghost use Rattle.std.specs.String.{string_bytes};
ghost use Rattle.byte_reading.specs.Decimal.{decimal_text};

use itoa::Buffer;
use std::alloc::AllocError;

/// A part of a program, which is printed in the plain layout.
pub trait Plain {
    ghost plain: { Self → List ℕ };

    ghost has_ascii_names: { Self → Type 0 };

    /// Adds the text of the part to the end of `text`.
    fn push_to(&self, text: &mut String) -> Result<(), AllocError>
        requires { has_ascii_names self.now }
        ensures { OnOk result (string_bytes text.new ≡ string_bytes text.old ++ plain self.now) };
}

/// A number in decimal.
pub fn push_number(text: &mut String, n: u128) -> Result<(), AllocError>
    ensures { OnOk result (string_bytes text.new ≡ string_bytes text.old ++ decimal_text n) }
{
    text.push_str(Buffer::new().format(n))
}

/// A name, or a word.
pub fn push_name(text: &mut String, name: &[u8]) -> Result<(), AllocError>
    requires { IsAscii name.now }
    ensures { OnOk result (string_bytes text.new ≡ string_bytes text.old ++ name.now) }
{
    text.push_str(str::from_utf8(name).unwrap())
}

/// Parts one after another, with the separator between each two.
pub fn push_joined<T: Plain>(
    text: &mut String,
    parts: &[T],
    separator: &str,
) -> Result<(), AllocError>
    requires { All T.has_ascii_names parts.now }
    ensures { OnOk result (string_bytes text.new ≡ string_bytes text.old ++ join_by T.plain separator.now parts.now) }
{
    if let Some((first, more)) = parts.split_first() {
        first.push_to(text)?;
        for part in more {
            text.push_str(separator)?;
            part.push_to(text)?;
        }
    }
    Ok(())
}
