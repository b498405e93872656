//! Dictionaries, by their generic names.

ghost use Rattle.std.specs.Prelude.{◌≡◌};
ghost use Rattle.libfunc_registry.specs.Reading as reading;
ghost use Rattle.libfunc_registry.specs.Dictionaries.{dictionaries_rows};

use crate::arguments::{is, one_number_type};
use crate::libfunc::Libfunc;
use sierra_types::Arg;
use type_table::Types;

/// The libfunc of this group with this generic name: `None` if there is none, `Some(None)` if the arguments are wrong.
#[tactic(auto, unfolding(crate::specs::Dictionaries::dictionaries_rows))]
pub(crate) fn dictionaries(types: &Types, name: &[u8], args: &[Arg]) -> Option<Option<Libfunc>>
    ensures { result ≡ reading.read types.now dictionaries_rows name.now args.now }
{
    if is(name, b"felt64_dict_new") {
        Some(one_number_type(types, args).map(Libfunc::DictNew))
    } else if is(name, b"felt64_dict_entry_get") {
        Some(one_number_type(types, args).map(Libfunc::DictEntryGet))
    } else if is(name, b"felt64_dict_entry_finalize") {
        Some(one_number_type(types, args).map(Libfunc::DictEntryFinalize))
    } else if is(name, b"felt64_dict_squash") {
        Some(one_number_type(types, args).map(Libfunc::DictSquash))
    } else if is(name, b"squashed_felt64_dict_entries") {
        Some(one_number_type(types, args).map(Libfunc::DictEntries))
    } else {
        None
    }
}
