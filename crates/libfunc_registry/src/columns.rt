//! What each libfunc takes and gives: two columns of the table of libfuncs.

ghost use Rattle.std.specs.Prelude.{◌≡◌};
ghost use Rattle.libfunc_registry.specs.Arguments.{num_of};
ghost use Rattle.libfunc_registry.specs.Integers.{num_of_double};
ghost use Rattle.libfunc_registry.specs.Wanted.{IsTaken, IsGiven};

use crate::libfunc::Libfunc::{self, *};
use crate::wanted::Branches::{self, *};
use crate::wanted::Listed::{self, *};
use crate::wanted::Wanted::{self, *};
use crate::width::Width;
use type_table::{Shape, TypeId};
use type_trees::Num;

/// `RangeCheck`.
const RANGE_CHECK: Wanted = Wanted::Shaped(Shape::RangeCheck);

/// `GasBuiltin`.
const GAS_BUILTIN: Wanted = Wanted::Shaped(Shape::GasBuiltin);

/// `felt64`.
const FELT: Wanted = Wanted::Shaped(Shape::Number(Num::Felt64));

/// `u32`.
const U32: Wanted = Wanted::Shaped(Shape::Number(Num::U32));

/// A type of numbers.
fn number(num: Num) -> Wanted
    ensures { result ≡ Wanted.Shaped (Shape.Number num) }
{
    Wanted::Shaped(Shape::Number(num))
}

/// A type of numbers other than 0.
fn nonzero(num: Num) -> Wanted
    ensures { result ≡ Wanted.Shaped (Shape.NonZero num) }
{
    Wanted::Shaped(Shape::NonZero(num))
}

/// The integers of a width.
fn int(width: Width) -> Wanted
    ensures { result ≡ Wanted.Shaped (Shape.Number (num_of width)) }
{
    number(width.num())
}

/// An array of the type at this position.
fn array(item: TypeId) -> Wanted
    ensures { result ≡ Wanted.Shaped (Shape.Array item) }
{
    Wanted::Shaped(Shape::Array(item))
}

/// A box of the type at this position.
fn boxed(item: TypeId) -> Wanted
    ensures { result ≡ Wanted.Shaped (Shape.Box item) }
{
    Wanted::Shaped(Shape::Box(item))
}

/// A dictionary of the number.
fn dict(num: Num) -> Wanted
    ensures { result ≡ Wanted.Shaped (Shape.Dict num) }
{
    Wanted::Shaped(Shape::Dict(num))
}

/// An open entry of a dictionary of the number.
fn entry(num: Num) -> Wanted
    ensures { result ≡ Wanted.Shaped (Shape.DictEntry num) }
{
    Wanted::Shaped(Shape::DictEntry(num))
}

/// The pointer of range checks, and an integer of a width.
fn checked(width: Width) -> Listed
    ensures { result ≡ Listed.Two (Wanted.Shaped Shape.RangeCheck) (Wanted.Shaped (Shape.Number (num_of width))) }
{
    Two(RANGE_CHECK, int(width))
}

/// The types that the libfunc takes.
pub(crate) fn takes(libfunc: Libfunc) -> Listed
    ensures { IsTaken libfunc result }
{
    match libfunc {
        BranchAlign | Jump | FinalizeLocals | DisableApTracking | EnableApTracking => Nothing,
        AllocLocal(_) | Const(..) | ArrayNew(_) | DictNew(_) => Nothing,
        Rename(t) | Dup(t) | Drop(t) | StoreTemp(t) | SnapshotTake(t) | IntoBox(t) => One(At(t)),
        EnumMatch(t) | StructDeconstruct(t) => One(At(t)),
        EnumSnapshotMatch(t) | StructSnapshotDeconstruct(t) => One(Snap(t)),
        StoreLocal(t) => Two(Shaped(Shape::Uninitialized(t)), At(t)),
        FunctionCall(f) => Params(f),
        WithdrawGas => Two(RANGE_CHECK, GAS_BUILTIN),
        FeltAdd | FeltSub | FeltMul => Two(FELT, FELT),
        IsZero(num) => One(number(num)),
        UnwrapNonZero(num) => One(nonzero(num)),
        ToFelt(w) | Upcast(w, _) => One(int(w)),
        TryFromFelt(_) => Two(RANGE_CHECK, FELT),
        OverflowingAdd(w) | OverflowingSub(w) => Three(RANGE_CHECK, int(w), int(w)),
        WideMul(w) | WidthEq(w) => Two(int(w), int(w)),
        SplitMul => Three(RANGE_CHECK, U32, U32),
        SafeDivmod(w) => Three(RANGE_CHECK, int(w), nonzero(w.num())),
        Downcast(w, _) => Two(RANGE_CHECK, int(w)),
        EnumInit(t, index) => One(Variant(t, index)),
        StructConstruct(t) => Parts(t),
        Unbox(t) => One(boxed(t)),
        ArrayAppend(t) => Two(array(t), At(t)),
        ArrayLen(t) => One(SnapshotOfArray(t)),
        ArrayGet(t) => Three(RANGE_CHECK, SnapshotOfArray(t), U32),
        ArrayPopFront(t) => One(array(t)),
        DictEntryGet(num) => Three(RANGE_CHECK, dict(num), FELT),
        DictEntryFinalize(num) => Two(entry(num), number(num)),
        DictSquash(num) => Two(RANGE_CHECK, dict(num)),
        DictEntries(num) => One(Shaped(Shape::SquashedDict(num))),
    }
}

/// The types that the libfunc gives.
pub(crate) fn gives(libfunc: Libfunc) -> Branches
    ensures { IsGiven libfunc result }
{
    match libfunc {
        BranchAlign | Jump | Drop(_) | FinalizeLocals => Single(Nothing),
        DisableApTracking | EnableApTracking => Single(Nothing),
        Rename(t) | StoreTemp(t) | StoreLocal(t) | Unbox(t) => Single(One(At(t))),
        EnumInit(t, _) | StructConstruct(t) => Single(One(At(t))),
        Dup(t) => Single(Two(At(t), At(t))),
        AllocLocal(t) => Single(One(Shaped(Shape::Uninitialized(t)))),
        FunctionCall(f) => Single(Results(f)),
        WithdrawGas => Double(Two(RANGE_CHECK, GAS_BUILTIN), Two(RANGE_CHECK, GAS_BUILTIN)),
        Const(num, _) | UnwrapNonZero(num) => Single(One(number(num))),
        FeltAdd | FeltSub | FeltMul | ToFelt(_) => Single(One(FELT)),
        IsZero(num) => Double(Nothing, One(nonzero(num))),
        TryFromFelt(w) | Downcast(_, w) => Double(checked(w), One(RANGE_CHECK)),
        OverflowingAdd(w) | OverflowingSub(w) => Double(checked(w), checked(w)),
        WideMul(w) => Single(One(number(double(w)))),
        SplitMul => Single(Three(RANGE_CHECK, U32, U32)),
        SafeDivmod(w) => Single(Three(RANGE_CHECK, int(w), int(w))),
        WidthEq(_) => Double(Nothing, Nothing),
        Upcast(_, w) => Single(One(int(w))),
        EnumMatch(t) => EachPart(t),
        EnumSnapshotMatch(t) => EachSnap(t),
        StructDeconstruct(t) => Single(Parts(t)),
        StructSnapshotDeconstruct(t) => Single(Snaps(t)),
        SnapshotTake(t) => Single(Two(At(t), Snap(t))),
        IntoBox(t) => Single(One(boxed(t))),
        ArrayNew(t) | ArrayAppend(t) => Single(One(array(t))),
        ArrayLen(_) => Single(One(U32)),
        ArrayGet(t) => Double(Two(RANGE_CHECK, BoxOfSnap(t)), One(RANGE_CHECK)),
        ArrayPopFront(t) => Double(Two(array(t), boxed(t)), One(array(t))),
        DictNew(num) | DictEntryFinalize(num) => Single(One(dict(num))),
        DictEntryGet(num) => Single(Three(RANGE_CHECK, entry(num), number(num))),
        DictSquash(num) => Single(Two(RANGE_CHECK, Shaped(Shape::SquashedDict(num)))),
        DictEntries(num) => Single(One(Entries(num))),
    }
}

/// The type of a product of two integers of this width; no wide product is of two `u32`.
fn double(width: Width) -> Num
    ensures { result ≡ num_of_double width }
{
    match width {
        Width::W8 => Num::U16,
        Width::W16 | Width::W32 => Num::U32,
    }
}
