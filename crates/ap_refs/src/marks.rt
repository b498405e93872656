//! What libfuncs ask of the expressions of their arguments.

ghost use Rattle.std.specs.Prelude.{◌≡◌};
ghost use Rattle.type_table.specs.View.{TypesView};
ghost use Rattle.libfunc_registry.specs.Fam.{fam_of};
ghost use Rattle.cost_table.specs.Fits as fits;

use cost_table::Mark;
use libfunc_registry::Libfunc;

/// The marks of a libfunc's arguments, in order. Where there are fewer than arguments, nothing is asked of the others.
pub(crate) fn marks_of(libfunc: Libfunc) -> &'static [Mark]
    ensures { (types : TypesView) → result.now ≡ fits.marks_of (fam_of types libfunc) }
{
    match libfunc {
        Libfunc::IsZero(_) => &[Mark::Cells],
        Libfunc::IntoBox(_) => &[Mark::Cells],
        Libfunc::Unbox(_) => &[Mark::Cells],
        Libfunc::ArrayLen(_) => &[Mark::Cells],
        Libfunc::ArrayPopFront(_) => &[Mark::Cells],
        Libfunc::WithdrawGas => &[Mark::Cells, Mark::Cells],
        Libfunc::TryFromFelt(_) => &[Mark::Cells, Mark::Cells],
        Libfunc::WidthEq(_) => &[Mark::Cells, Mark::Cells],
        Libfunc::Downcast(_, _) => &[Mark::Cells, Mark::Cells],
        Libfunc::DictEntryFinalize(_) => &[Mark::Cells, Mark::Cells],
        Libfunc::DictSquash(_) => &[Mark::Cells, Mark::Cells],
        Libfunc::OverflowingAdd(_) => &[Mark::Cells, Mark::Cells, Mark::Cells],
        Libfunc::OverflowingSub(_) => &[Mark::Cells, Mark::Cells, Mark::Cells],
        Libfunc::SplitMul => &[Mark::Cells, Mark::Cells, Mark::Cells],
        Libfunc::SafeDivmod(_) => &[Mark::Cells, Mark::Cells, Mark::Cells],
        Libfunc::ArrayGet(_) => &[Mark::Cells, Mark::Cells, Mark::Cells],
        Libfunc::DictEntryGet(_) => &[Mark::Cells, Mark::Cells, Mark::Cells],
        Libfunc::FeltAdd => &[Mark::Cells, Mark::CellOrNumber],
        Libfunc::FeltSub => &[Mark::Cells, Mark::CellOrNumber],
        Libfunc::FeltMul => &[Mark::Cells, Mark::CellOrNumber],
        Libfunc::WideMul(_) => &[Mark::Cells, Mark::CellOrNumber],
        Libfunc::EnumMatch(_) => &[Mark::FirstCell],
        Libfunc::EnumSnapshotMatch(_) => &[Mark::FirstCell],
        Libfunc::ArrayAppend(_) => &[Mark::SecondCell, Mark::Cells],
        Libfunc::BranchAlign => &[],
        Libfunc::Jump => &[],
        Libfunc::Rename(_) => &[],
        Libfunc::Dup(_) => &[],
        Libfunc::Drop(_) => &[],
        Libfunc::StoreTemp(_) => &[],
        Libfunc::StoreLocal(_) => &[],
        Libfunc::AllocLocal(_) => &[],
        Libfunc::FinalizeLocals => &[],
        Libfunc::DisableApTracking => &[],
        Libfunc::EnableApTracking => &[],
        Libfunc::FunctionCall(_) => &[],
        Libfunc::Const(_, _) => &[],
        Libfunc::UnwrapNonZero(_) => &[],
        Libfunc::ToFelt(_) => &[],
        Libfunc::Upcast(_, _) => &[],
        Libfunc::EnumInit(_, _) => &[],
        Libfunc::StructConstruct(_) => &[],
        Libfunc::StructDeconstruct(_) => &[],
        Libfunc::StructSnapshotDeconstruct(_) => &[],
        Libfunc::SnapshotTake(_) => &[],
        Libfunc::ArrayNew(_) => &[],
        Libfunc::DictNew(_) => &[],
        Libfunc::DictEntries(_) => &[],
    }
}
