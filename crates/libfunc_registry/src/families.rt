//! The families, by generic name and arguments.

ghost use Rattle.std.specs.Prelude.{◌≡◌};
ghost use Rattle.libfunc_registry.specs.Reading as reading;

use crate::arrays::arrays;
use crate::control::control;
use crate::data::data;
use crate::dictionaries::dictionaries;
use crate::felts::felts;
use crate::gas::gas;
use crate::integers::integers;
use crate::libfunc::Libfunc;
use sierra_types::Arg;
use type_table::Types;

/// The libfunc with this generic name: `None` if there is none, `Some(None)` if the arguments are wrong.
pub(crate) fn libfunc_named(types: &Types, name: &[u8], args: &[Arg]) -> Option<Option<Libfunc>>
    ensures { result ≡ reading.read_all types.now name.now args.now }
{
    control(types, name, args)
        .or_else(|| gas(types, name, args))
        .or_else(|| felts(types, name, args))
        .or_else(|| integers(types, name, args))
        .or_else(|| data(types, name, args))
        .or_else(|| arrays(types, name, args))
        .or_else(|| dictionaries(types, name, args))
}
