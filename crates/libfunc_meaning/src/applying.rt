//! What a libfunc does with values: its branch and its results.

ghost use Rattle.std.specs.Prelude.{map, IfOk};
ghost use Rattle.libfunc_registry.specs.Fam.{fam_of, takes};
ghost use Rattle.value_trees.specs.Meant.{meant};
ghost use Rattle.libfunc_meaning.specs.Applying.{IsSignature, AreShort};
ghost use Rattle.libfunc_meaning.specs.Dictionaries.{mapped};
ghost use Rattle.libfunc_meaning.specs.Do.{Do};
ghost use Rattle.libfunc_meaning.specs.Mapped.{plain_does};
ghost use Rattle.libfunc_meaning.specs.Placed.{ArePlain, IsAnswer};
ghost use Rattle.libfunc_meaning.specs.Proper.{IsAsked, IsNoCall};

use crate::{arrays, control, data, dictionaries, felts, gas, integers};
use libfunc_registry::Libfunc::{self, *};
use libfunc_registry::Sig;
use std::alloc::{AllocError, Global};
use type_table::Types;
use type_trees::Num;
use value_trees::Value;

/// What a libfunc that is no call does with values of the types of its arguments: the branch that it takes, from 0, and its
/// results. The amount is what a successful `withdraw_gas` takes. The values are given up where memory runs out.
///
/// Values move from the arguments to the results; copies are made by `dup`, `snapshot_take` and `array_get` alone.
pub fn apply(
    alloc: Global,
    types: &Types,
    sig: &Sig,
    values: Vec<Value>,
    amount: u64,
) -> Result<(usize, Vec<Value>), AllocError>
    requires signature { IsSignature types.now sig.now }
    requires no_call { IsNoCall (fam_of types.now sig.now.libfunc) }
    requires typed { ArePlain (takes (fam_of types.now sig.now.libfunc)) (map meant values.items) }
    requires short { AreShort (map meant values.items) }
    ensures { IfOk result (λ r. Do mapped (fam_of types.now sig.now.libfunc) (map meant values.items) amount r.0 (map meant r.1.items)) }
{
    applied(alloc, types, sig.libfunc, values, amount)
}

/// The same by the libfunc, as it is computed.
fn applied(
    alloc: Global,
    types: &Types,
    libfunc: Libfunc,
    values: Vec<Value>,
    amount: u64,
) -> Result<(usize, Vec<Value>), AllocError>
    requires asked { IsAsked (fam_of types.now libfunc) (map meant values.items) }
    requires typed { ArePlain (takes (fam_of types.now libfunc)) (map meant values.items) }
    ensures { IfOk result (IsAnswer (plain_does (fam_of types.now libfunc) (map meant values.items) amount)) }
{
    match libfunc {
        BranchAlign | Jump | FinalizeLocals | DisableApTracking | EnableApTracking => {
            Ok((0, values))
        }
        Rename(_) | StoreTemp(_) | UnwrapNonZero(_) => Ok((0, values)),
        Dup(_) | SnapshotTake(_) => control::copied(alloc, values),
        Drop(_) => Ok(control::dropped(values)),
        StoreLocal(_) => control::stored(values),
        AllocLocal(_) => control::uninitialized(values),
        FunctionCall(_) => unreachable!(),
        WithdrawGas => gas::withdraw(values, amount),
        Const(num, word) => felts::constant(values, num, word),
        FeltAdd => felts::sum(values),
        FeltSub => felts::difference(values),
        FeltMul => felts::product(values),
        IsZero(num) => Ok(felts::tested(values, num)),
        ToFelt(w) => integers::to_felt(values, w),
        TryFromFelt(w) => integers::narrow(values, Num::Felt64, w),
        OverflowingAdd(w) => integers::overflowing_add(values, w),
        OverflowingSub(w) => integers::overflowing_sub(values, w),
        WideMul(w) => integers::wide_mul(values, w),
        SplitMul => integers::split_mul(values),
        SafeDivmod(w) => integers::safe_divmod(values, w),
        WidthEq(w) => Ok(integers::equal(values, w)),
        Upcast(from, to) => integers::upcast(values, from, to),
        Downcast(from, to) => integers::narrow(values, from.num(), to),
        EnumInit(_, index) => data::variant(alloc, values, index),
        EnumMatch(_) | EnumSnapshotMatch(_) => data::matched(values),
        StructConstruct(_) => data::constructed(alloc, values),
        StructDeconstruct(_) | StructSnapshotDeconstruct(_) => Ok(data::deconstructed(values)),
        IntoBox(_) => data::boxed(alloc, values),
        Unbox(_) => data::unboxed(values),
        ArrayNew(_) => arrays::array_new(alloc, values),
        ArrayAppend(_) => arrays::array_append(alloc, values),
        ArrayLen(_) => arrays::array_len(values),
        ArrayGet(_) => arrays::array_get(alloc, values),
        ArrayPopFront(_) => arrays::array_pop_front(alloc, values),
        DictNew(num) => dictionaries::dict_new(alloc, values, num),
        DictEntryGet(num) => dictionaries::entry_get(values, num),
        DictEntryFinalize(num) => dictionaries::entry_finalize(values, num),
        DictSquash(num) => dictionaries::squashed(values, num),
        DictEntries(num) => dictionaries::entries(alloc, values, num),
    }
}
