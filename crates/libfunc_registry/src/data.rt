//! Enums, structs, snapshots and boxes, by their generic names.

ghost use Rattle.std.specs.Prelude.{◌≡◌};
ghost use Rattle.libfunc_registry.specs.Reading as reading;
ghost use Rattle.std.specs.Option.{option_map};
ghost use Rattle.libfunc_registry.specs.declared.libfunc.Libfunc.TheVariants.{EnumInit};
ghost use Rattle.libfunc_registry.specs.Data.{data_rows};

use crate::arguments::{is, one_enum, one_struct, one_type, one_variant};
use crate::libfunc::Libfunc;
use sierra_types::Arg;
use type_table::Types;

/// The libfunc of this group with this generic name: `None` if there is none, `Some(None)` if the arguments are wrong.
#[tactic(auto, unfolding(crate::specs::Data::data_rows))]
pub(crate) fn data(types: &Types, name: &[u8], args: &[Arg]) -> Option<Option<Libfunc>>
    ensures { result ≡ reading.read types.now data_rows name.now args.now }
{
    if is(name, b"enum_init") {
        Some(enum_init(types, args))
    } else if is(name, b"enum_match") {
        Some(one_enum(types, args).map(Libfunc::EnumMatch))
    } else if is(name, b"enum_snapshot_match") {
        Some(one_enum(types, args).map(Libfunc::EnumSnapshotMatch))
    } else if is(name, b"struct_construct") {
        Some(one_struct(types, args).map(Libfunc::StructConstruct))
    } else if is(name, b"struct_deconstruct") {
        Some(one_struct(types, args).map(Libfunc::StructDeconstruct))
    } else if is(name, b"struct_snapshot_deconstruct") {
        Some(one_struct(types, args).map(Libfunc::StructSnapshotDeconstruct))
    } else if is(name, b"snapshot_take") {
        Some(one_type(types, args).map(Libfunc::SnapshotTake))
    } else if is(name, b"into_box") {
        Some(one_type(types, args).map(Libfunc::IntoBox))
    } else if is(name, b"unbox") {
        Some(one_type(types, args).map(Libfunc::Unbox))
    } else {
        None
    }
}

/// The making of the variant that the two arguments name.
fn enum_init(types: &Types, args: &[Arg]) -> Option<Libfunc>
    ensures { result ≡ option_map (λ p. EnumInit p.0 p.1) (reading.variant_in types.now args.now) }
{
    let (of, index) = one_variant(types, args)?;
    Some(Libfunc::EnumInit(of, index))
}
