//! Felts and constants, by their generic names.

ghost use Rattle.std.specs.Prelude.{◌≡◌};
ghost use Rattle.libfunc_registry.specs.Reading as reading;
ghost use Rattle.libfunc_registry.specs.declared.libfunc.Libfunc.TheVariants.{Const};
ghost use Rattle.libfunc_registry.specs.Felts.{felts_rows};
ghost use Rattle.std.specs.Option.{option_map};

use crate::arguments::{is, one_constant, one_number_type};
use crate::libfunc::Libfunc;
use sierra_types::Arg;
use type_table::Types;
use type_trees::Num;

/// The libfunc of this group with this generic name: `None` if there is none, `Some(None)` if the arguments are wrong.
#[tactic(auto, unfolding(crate::specs::Felts::felts_rows))]
pub(crate) fn felts(types: &Types, name: &[u8], args: &[Arg]) -> Option<Option<Libfunc>>
    ensures { result ≡ reading.read types.now felts_rows name.now args.now }
{
    if is(name, b"felt64_const") {
        Some(constant(Num::Felt64, args))
    } else if is(name, b"u8_const") {
        Some(constant(Num::U8, args))
    } else if is(name, b"u16_const") {
        Some(constant(Num::U16, args))
    } else if is(name, b"u32_const") {
        Some(constant(Num::U32, args))
    } else if is(name, b"felt64_add") {
        Some(args.is_empty().then_some(Libfunc::FeltAdd))
    } else if is(name, b"felt64_sub") {
        Some(args.is_empty().then_some(Libfunc::FeltSub))
    } else if is(name, b"felt64_mul") {
        Some(args.is_empty().then_some(Libfunc::FeltMul))
    } else if is(name, b"felt64_is_zero") {
        Some(args.is_empty().then_some(Libfunc::IsZero(Num::Felt64)))
    } else if is(name, b"u8_is_zero") {
        Some(args.is_empty().then_some(Libfunc::IsZero(Num::U8)))
    } else if is(name, b"u16_is_zero") {
        Some(args.is_empty().then_some(Libfunc::IsZero(Num::U16)))
    } else if is(name, b"u32_is_zero") {
        Some(args.is_empty().then_some(Libfunc::IsZero(Num::U32)))
    } else if is(name, b"unwrap_non_zero") {
        Some(one_number_type(types, args).map(Libfunc::UnwrapNonZero))
    } else {
        None
    }
}

/// The constant that the one argument writes.
fn constant(num: Num, args: &[Arg]) -> Option<Libfunc>
    ensures { result ≡ option_map (Const num) (reading.constant_in num args.now) }
{
    Some(Libfunc::Const(num, one_constant(num, args)?))
}
