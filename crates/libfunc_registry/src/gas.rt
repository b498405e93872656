//! Calls and gas, by their generic names.

ghost use Rattle.std.specs.Prelude.{◌≡◌};
ghost use Rattle.libfunc_registry.specs.Reading as reading;
ghost use Rattle.libfunc_registry.specs.Gas.{gas_rows};

use crate::arguments::{is, one_function};
use crate::libfunc::Libfunc;
use sierra_types::Arg;
use type_table::Types;

/// The libfunc of this group with this generic name: `None` if there is none, `Some(None)` if the arguments are wrong.
#[tactic(auto, unfolding(crate::specs::Gas::gas_rows))]
pub(crate) fn gas(types: &Types, name: &[u8], args: &[Arg]) -> Option<Option<Libfunc>>
    ensures { result ≡ reading.read types.now gas_rows name.now args.now }
{
    if is(name, b"function_call") {
        Some(one_function(types, args).map(Libfunc::FunctionCall))
    } else if is(name, b"withdraw_gas") {
        Some(args.is_empty().then_some(Libfunc::WithdrawGas))
    } else {
        None
    }
}
