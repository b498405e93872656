//! The lowering of a libfunc.

ghost use Rattle.std.specs.Prelude.{◌≡◌, ◌<◌, ◌^◌, IfOk, true, false};
ghost use Rattle.std.specs.List.{All};
ghost use Rattle.casm_word.specs.Expressions.{IsExprInField};
ghost use Rattle.cost_table.specs.Fits.{Fit, IsCloseExpr, IsSignature};
ghost use Rattle.libfunc_registry.specs.Fam.{fam_of};
ghost use Rattle.type_table.specs.View.{TypesView};
ghost use Rattle.lower_kit.specs.Fitting.{IsInnerNear};
ghost use Rattle.lower_kit.specs.Logged.{logged};
ghost use Rattle.lower_kit.specs.Lowers.{Lowers};
ghost use Rattle.lower_core.specs.Core.{IsCore, core_fragment};

use crate::control::control;
use crate::data::data;
use crate::felts::felts;
use crate::sizes::placed;
use casm_word::CellExpr;
use frag_code::Frag;
use libfunc_registry::{Libfunc, Sig};
use std::alloc::{AllocError, Global};
use type_table::Types;

/// Whether the libfunc is lowered here: whether it is one of control and places, felts and constants, or enums, structs,
/// snapshots and boxes. The layout asks it before `lower`.
pub fn is_core(libfunc: Libfunc) -> bool
    ensures here { (types : TypesView) → result ≡ true → IsCore (fam_of types libfunc) }
    ensures elsewhere { (types : TypesView) → result ≡ false → IsCore (fam_of types libfunc) → ⊥ }
{
    match libfunc {
        Libfunc::BranchAlign
        | Libfunc::Jump
        | Libfunc::Rename(_)
        | Libfunc::Dup(_)
        | Libfunc::Drop(_)
        | Libfunc::StoreTemp(_)
        | Libfunc::StoreLocal(_)
        | Libfunc::AllocLocal(_)
        | Libfunc::FinalizeLocals
        | Libfunc::DisableApTracking
        | Libfunc::EnableApTracking
        | Libfunc::Const(_, _)
        | Libfunc::FeltAdd
        | Libfunc::FeltSub
        | Libfunc::FeltMul
        | Libfunc::IsZero(_)
        | Libfunc::UnwrapNonZero(_)
        | Libfunc::EnumInit(_, _)
        | Libfunc::EnumMatch(_)
        | Libfunc::EnumSnapshotMatch(_)
        | Libfunc::StructConstruct(_)
        | Libfunc::StructDeconstruct(_)
        | Libfunc::StructSnapshotDeconstruct(_)
        | Libfunc::SnapshotTake(_)
        | Libfunc::IntoBox(_)
        | Libfunc::Unbox(_) => true,
        Libfunc::FunctionCall(_)
        | Libfunc::WithdrawGas
        | Libfunc::ToFelt(_)
        | Libfunc::TryFromFelt(_)
        | Libfunc::OverflowingAdd(_)
        | Libfunc::OverflowingSub(_)
        | Libfunc::WideMul(_)
        | Libfunc::SplitMul
        | Libfunc::SafeDivmod(_)
        | Libfunc::WidthEq(_)
        | Libfunc::Upcast(_, _)
        | Libfunc::Downcast(_, _)
        | Libfunc::ArrayNew(_)
        | Libfunc::ArrayAppend(_)
        | Libfunc::ArrayLen(_)
        | Libfunc::ArrayGet(_)
        | Libfunc::ArrayPopFront(_)
        | Libfunc::DictNew(_)
        | Libfunc::DictEntryGet(_)
        | Libfunc::DictEntryFinalize(_)
        | Libfunc::DictSquash(_)
        | Libfunc::DictEntries(_) => false,
    }
}

/// The fragment of a libfunc of control and places, felts and constants, or enums, structs, snapshots and boxes.
///
/// `args` are the expressions of the arguments' cells, in order. `amount` is the statement's: at a `finalize_locals` the number of
/// cells of the locals, by which its fragment moves ap; at an `alloc_local` the offset of the local from fp, where its result is. No
/// other libfunc of these depends on it. The one error is out of memory.
pub fn lower(
    alloc: Global,
    types: &Types,
    sig: &Sig,
    args: &[CellExpr],
    amount: u64,
) -> Result<Frag, AllocError>
    requires signature { IsSignature types.now sig.now }
    requires core { IsCore (fam_of types.now sig.now.libfunc) }
    requires close { All IsCloseExpr args.now }
    requires in_field { All IsExprInField args.now }
    requires amount { amount < 2 ^ 40 }
    ensures fragment { IfOk result (λ f. f ≡ core_fragment args.now amount (fam_of types.now sig.now.libfunc)) }
    ensures lowers { IfOk result (λ f. Fit (fam_of types.now sig.now.libfunc) args.now → All IsInnerNear args.now → Lowers logged (fam_of types.now sig.now.libfunc) args.now amount f) }
{
    placed(types, sig);
    if let Some(frag) = control(alloc, types, sig.libfunc, args, amount)? {
        return Ok(frag);
    }
    if let Some(frag) = felts(alloc, types, sig.libfunc, args)? {
        return Ok(frag);
    }
    Ok(data(alloc, types, sig.libfunc, args)?.unwrap())
}
