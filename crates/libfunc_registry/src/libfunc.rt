//! Libfuncs with resolved arguments.

use crate::width::Width;
use type_table::TypeId;
use type_trees::Num;

/// A libfunc with its resolved arguments.
#[derive(Clone, Copy, Debug, PartialEq, Eq, Drop)]
pub enum Libfunc {
    /// `branch_align`.
    BranchAlign,
    /// `jump`.
    Jump,
    /// `rename<T>`.
    Rename(TypeId),
    /// `dup<T>`.
    Dup(TypeId),
    /// `drop<T>`.
    Drop(TypeId),
    /// `store_temp<T>`.
    StoreTemp(TypeId),
    /// `store_local<T>`.
    StoreLocal(TypeId),
    /// `alloc_local<T>`.
    AllocLocal(TypeId),
    /// `finalize_locals`.
    FinalizeLocals,
    /// `disable_ap_tracking`.
    DisableApTracking,
    /// `enable_ap_tracking`.
    EnableApTracking,
    /// `function_call<user@f>`, with the position of f among the functions.
    FunctionCall(usize),
    /// `withdraw_gas`.
    WithdrawGas,
    /// `N_const<n>`, with its word: `P - n` for `-n`.
    Const(Num, u64),
    /// `felt64_add`.
    FeltAdd,
    /// `felt64_sub`.
    FeltSub,
    /// `felt64_mul`.
    FeltMul,
    /// `N_is_zero`.
    IsZero(Num),
    /// `unwrap_non_zero<N>`.
    UnwrapNonZero(Num),
    /// `W_to_felt64`.
    ToFelt(Width),
    /// `W_try_from_felt64`.
    TryFromFelt(Width),
    /// `W_overflowing_add`.
    OverflowingAdd(Width),
    /// `W_overflowing_sub`.
    OverflowingSub(Width),
    /// `u8_wide_mul` or `u16_wide_mul`.
    WideMul(Width),
    /// `u32_split_mul`.
    SplitMul,
    /// `W_safe_divmod`.
    SafeDivmod(Width),
    /// `W_eq`.
    WidthEq(Width),
    /// `upcast<A, B>`: from A to B, which is at least as wide.
    Upcast(Width, Width),
    /// `downcast<A, B>`: from A to B, which is narrower.
    Downcast(Width, Width),
    /// `enum_init<E, i>`, with the variant's index.
    EnumInit(TypeId, u32),
    /// `enum_match<E>`.
    EnumMatch(TypeId),
    /// `enum_snapshot_match<E>`.
    EnumSnapshotMatch(TypeId),
    /// `struct_construct<S>`.
    StructConstruct(TypeId),
    /// `struct_deconstruct<S>`.
    StructDeconstruct(TypeId),
    /// `struct_snapshot_deconstruct<S>`.
    StructSnapshotDeconstruct(TypeId),
    /// `snapshot_take<T>`.
    SnapshotTake(TypeId),
    /// `into_box<T>`.
    IntoBox(TypeId),
    /// `unbox<T>`.
    Unbox(TypeId),
    /// `array_new<T>`.
    ArrayNew(TypeId),
    /// `array_append<T>`.
    ArrayAppend(TypeId),
    /// `array_len<T>`.
    ArrayLen(TypeId),
    /// `array_get<T>`.
    ArrayGet(TypeId),
    /// `array_pop_front<T>`.
    ArrayPopFront(TypeId),
    /// `felt64_dict_new<V>`.
    DictNew(Num),
    /// `felt64_dict_entry_get<V>`.
    DictEntryGet(Num),
    /// `felt64_dict_entry_finalize<V>`.
    DictEntryFinalize(Num),
    /// `felt64_dict_squash<V>`.
    DictSquash(Num),
    /// `squashed_felt64_dict_entries<V>`.
    DictEntries(Num),
}
