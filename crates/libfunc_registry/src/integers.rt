//! Integers of 8, 16 and 32 bits, by their generic names.

ghost use Rattle.std.specs.Prelude.{◌≡◌};
ghost use Rattle.libfunc_registry.specs.Reading as reading;
ghost use Rattle.std.specs.Prelude.{option_and_then};
ghost use Rattle.libfunc_registry.specs.declared.libfunc.Libfunc.TheVariants.{Upcast, Downcast};
ghost use Rattle.libfunc_registry.specs.Integers.{u8_rows, u16_rows, u32_rows, cast_rows, is_at_most, is_above};

use crate::arguments::{is, two_widths};
use crate::libfunc::Libfunc;
use crate::width::Width;
use sierra_types::Arg;
use type_table::Types;

/// The libfunc of this group with this generic name: `None` if there is none, `Some(None)` if the arguments are wrong.
pub(crate) fn integers(types: &Types, name: &[u8], args: &[Arg]) -> Option<Option<Libfunc>>
    ensures { result ≡ reading.read_integers types.now name.now args.now }
{
    u8_libfunc(types, name, args)
        .or_else(|| u16_libfunc(types, name, args))
        .or_else(|| u32_libfunc(types, name, args))
        .or_else(|| cast(types, name, args))
}

/// The same of the libfuncs of 8 bits.
#[tactic(auto, unfolding(crate::specs::Integers::u8_rows))]
fn u8_libfunc(types: &Types, name: &[u8], args: &[Arg]) -> Option<Option<Libfunc>>
    ensures { result ≡ reading.read types.now u8_rows name.now args.now }
{
    if is(name, b"u8_to_felt64") {
        Some(args.is_empty().then_some(Libfunc::ToFelt(Width::W8)))
    } else if is(name, b"u8_try_from_felt64") {
        Some(args.is_empty().then_some(Libfunc::TryFromFelt(Width::W8)))
    } else if is(name, b"u8_overflowing_add") {
        Some(
            args.is_empty()
                .then_some(Libfunc::OverflowingAdd(Width::W8)),
        )
    } else if is(name, b"u8_overflowing_sub") {
        Some(
            args.is_empty()
                .then_some(Libfunc::OverflowingSub(Width::W8)),
        )
    } else if is(name, b"u8_wide_mul") {
        Some(args.is_empty().then_some(Libfunc::WideMul(Width::W8)))
    } else if is(name, b"u8_safe_divmod") {
        Some(args.is_empty().then_some(Libfunc::SafeDivmod(Width::W8)))
    } else if is(name, b"u8_eq") {
        Some(args.is_empty().then_some(Libfunc::WidthEq(Width::W8)))
    } else {
        None
    }
}

/// The same of the libfuncs of 16 bits.
#[tactic(auto, unfolding(crate::specs::Integers::u16_rows))]
fn u16_libfunc(types: &Types, name: &[u8], args: &[Arg]) -> Option<Option<Libfunc>>
    ensures { result ≡ reading.read types.now u16_rows name.now args.now }
{
    if is(name, b"u16_to_felt64") {
        Some(args.is_empty().then_some(Libfunc::ToFelt(Width::W16)))
    } else if is(name, b"u16_try_from_felt64") {
        Some(args.is_empty().then_some(Libfunc::TryFromFelt(Width::W16)))
    } else if is(name, b"u16_overflowing_add") {
        Some(
            args.is_empty()
                .then_some(Libfunc::OverflowingAdd(Width::W16)),
        )
    } else if is(name, b"u16_overflowing_sub") {
        Some(
            args.is_empty()
                .then_some(Libfunc::OverflowingSub(Width::W16)),
        )
    } else if is(name, b"u16_wide_mul") {
        Some(args.is_empty().then_some(Libfunc::WideMul(Width::W16)))
    } else if is(name, b"u16_safe_divmod") {
        Some(args.is_empty().then_some(Libfunc::SafeDivmod(Width::W16)))
    } else if is(name, b"u16_eq") {
        Some(args.is_empty().then_some(Libfunc::WidthEq(Width::W16)))
    } else {
        None
    }
}

/// The same of the libfuncs of 32 bits.
#[tactic(auto, unfolding(crate::specs::Integers::u32_rows))]
fn u32_libfunc(types: &Types, name: &[u8], args: &[Arg]) -> Option<Option<Libfunc>>
    ensures { result ≡ reading.read types.now u32_rows name.now args.now }
{
    if is(name, b"u32_to_felt64") {
        Some(args.is_empty().then_some(Libfunc::ToFelt(Width::W32)))
    } else if is(name, b"u32_try_from_felt64") {
        Some(args.is_empty().then_some(Libfunc::TryFromFelt(Width::W32)))
    } else if is(name, b"u32_overflowing_add") {
        Some(
            args.is_empty()
                .then_some(Libfunc::OverflowingAdd(Width::W32)),
        )
    } else if is(name, b"u32_overflowing_sub") {
        Some(
            args.is_empty()
                .then_some(Libfunc::OverflowingSub(Width::W32)),
        )
    } else if is(name, b"u32_split_mul") {
        Some(args.is_empty().then_some(Libfunc::SplitMul))
    } else if is(name, b"u32_safe_divmod") {
        Some(args.is_empty().then_some(Libfunc::SafeDivmod(Width::W32)))
    } else if is(name, b"u32_eq") {
        Some(args.is_empty().then_some(Libfunc::WidthEq(Width::W32)))
    } else {
        None
    }
}

/// The same of casts.
#[tactic(auto, unfolding(crate::specs::Integers::cast_rows))]
fn cast(types: &Types, name: &[u8], args: &[Arg]) -> Option<Option<Libfunc>>
    ensures { result ≡ reading.read types.now cast_rows name.now args.now }
{
    if is(name, b"upcast") {
        Some(upcast(types, args))
    } else if is(name, b"downcast") {
        Some(downcast(types, args))
    } else {
        None
    }
}

/// The cast between the two widths that are written, if it is an upcast.
fn upcast(types: &Types, args: &[Arg]) -> Option<Libfunc>
    ensures { result ≡ option_and_then (λ p. reading.checked (is_at_most p.0 p.1) (Upcast p.0 p.1)) (reading.widths_in types.now args.now) }
{
    let (from, to) = two_widths(types, args)?;
    (from.bits() <= to.bits()).then_some(Libfunc::Upcast(from, to))
}

/// The cast between the two widths that are written, if it is a downcast.
fn downcast(types: &Types, args: &[Arg]) -> Option<Libfunc>
    ensures { result ≡ option_and_then (λ p. reading.checked (is_above p.0 p.1) (Downcast p.0 p.1)) (reading.widths_in types.now args.now) }
{
    let (from, to) = two_widths(types, args)?;
    (to.bits() < from.bits()).then_some(Libfunc::Downcast(from, to))
}
