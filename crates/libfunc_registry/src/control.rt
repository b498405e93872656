//! Control and places, by their generic names.

ghost use Rattle.std.specs.Prelude.{◌≡◌};
ghost use Rattle.libfunc_registry.specs.Reading as reading;
ghost use Rattle.libfunc_registry.specs.Control.{control_rows};

use crate::arguments::{is, one_type};
use crate::libfunc::Libfunc;
use sierra_types::Arg;
use type_table::Types;

/// The libfunc of this group with this generic name: `None` if there is none, `Some(None)` if the arguments are wrong.
#[tactic(auto, unfolding(crate::specs::Control::control_rows))]
pub(crate) fn control(types: &Types, name: &[u8], args: &[Arg]) -> Option<Option<Libfunc>>
    ensures { result ≡ reading.read types.now control_rows name.now args.now }
{
    if is(name, b"branch_align") {
        Some(args.is_empty().then_some(Libfunc::BranchAlign))
    } else if is(name, b"jump") {
        Some(args.is_empty().then_some(Libfunc::Jump))
    } else if is(name, b"rename") {
        Some(one_type(types, args).map(Libfunc::Rename))
    } else if is(name, b"dup") {
        Some(one_type(types, args).map(Libfunc::Dup))
    } else if is(name, b"drop") {
        Some(one_type(types, args).map(Libfunc::Drop))
    } else if is(name, b"store_temp") {
        Some(one_type(types, args).map(Libfunc::StoreTemp))
    } else if is(name, b"store_local") {
        Some(one_type(types, args).map(Libfunc::StoreLocal))
    } else if is(name, b"alloc_local") {
        Some(one_type(types, args).map(Libfunc::AllocLocal))
    } else if is(name, b"finalize_locals") {
        Some(args.is_empty().then_some(Libfunc::FinalizeLocals))
    } else if is(name, b"disable_ap_tracking") {
        Some(args.is_empty().then_some(Libfunc::DisableApTracking))
    } else if is(name, b"enable_ap_tracking") {
        Some(args.is_empty().then_some(Libfunc::EnableApTracking))
    } else {
        None
    }
}
