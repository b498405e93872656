//! Arrays, by their generic names.

ghost use Rattle.std.specs.Prelude.{◌≡◌};
ghost use Rattle.libfunc_registry.specs.Reading as reading;
ghost use Rattle.libfunc_registry.specs.Arrays.{arrays_rows};

use crate::arguments::{is, one_type};
use crate::libfunc::Libfunc;
use sierra_types::Arg;
use type_table::Types;

/// The libfunc of this group with this generic name: `None` if there is none, `Some(None)` if the arguments are wrong.
#[tactic(auto, unfolding(crate::specs::Arrays::arrays_rows))]
pub(crate) fn arrays(types: &Types, name: &[u8], args: &[Arg]) -> Option<Option<Libfunc>>
    ensures { result ≡ reading.read types.now arrays_rows name.now args.now }
{
    if is(name, b"array_new") {
        Some(one_type(types, args).map(Libfunc::ArrayNew))
    } else if is(name, b"array_append") {
        Some(one_type(types, args).map(Libfunc::ArrayAppend))
    } else if is(name, b"array_len") {
        Some(one_type(types, args).map(Libfunc::ArrayLen))
    } else if is(name, b"array_get") {
        Some(one_type(types, args).map(Libfunc::ArrayGet))
    } else if is(name, b"array_pop_front") {
        Some(one_type(types, args).map(Libfunc::ArrayPopFront))
    } else {
        None
    }
}
