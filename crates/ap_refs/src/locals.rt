//! The rule of locals.

ghost use Rattle.std.specs.Prelude.{◌≡◌, ◌<◌, ◌^◌, ◌+◌};
ghost use Rattle.libfunc_registry.specs.Wanted.{IsPlaced};
ghost use Rattle.ap_refs.specs.Flow as flow;
ghost use Rattle.ap_refs.specs.Locals as locals_of;
ghost use Rattle.ap_refs.specs.Prepared.{AreSmallLocals};

use crate::fault::RefFault;
use crate::moves::size;
use crate::place::Locals;
use crate::stored::Stored;
use libfunc_registry::Libfunc;
use type_table::Types;

/// Places a local of so many cells, and gives the offset from fp of its first cell.
fn allocate(cells: u64, ap: Option<u64>, locals: Locals) -> Option<(Locals, u64)>
    requires few { cells < 2 ^ 32 }
    requires small { AreSmallLocals locals }
    ensures { result ≡ locals_of.allocate cells ap locals }
{
    let ap = ap?;
    match locals {
        Locals::Before => Some((Locals::Allocating { start: ap, cells }, ap)),
        Locals::Allocating {
            start,
            cells: before,
        } => {
            if ap == start {
                let more = Locals::Allocating {
                    start,
                    cells: before + cells,
                };
                Some((more, start + before))
            } else {
                None
            }
        }
        Locals::Done => None,
    }
}

/// Reserves the cells of all locals, and gives their number.
fn finalize(ap: Option<u64>, locals: Locals) -> Option<(Locals, u64)>
    ensures { result ≡ locals_of.finalize ap locals }
{
    match locals {
        Locals::Before => Some((Locals::Done, 0)),
        Locals::Allocating { start, cells } => {
            if ap? == start {
                Some((Locals::Done, cells))
            } else {
                None
            }
        }
        Locals::Done => None,
    }
}

/// A local takes a value.
fn store(locals: Locals) -> Option<(Locals, u64)>
    ensures { result ≡ locals_of.store locals }
{
    match locals {
        Locals::Done => Some((Locals::Done, 0)),
        _ => None,
    }
}

/// What a libfunc makes of the local state, with its amount, if the rule of locals lets it.
fn local_step(
    types: &Types,
    libfunc: Libfunc,
    ap: Option<u64>,
    locals: Locals,
) -> Option<(Locals, u64)>
    requires placed { IsPlaced types.now libfunc }
    requires small { AreSmallLocals locals }
    ensures { result ≡ locals_of.local_step types.now libfunc ap locals }
{
    match libfunc {
        Libfunc::AllocLocal(t) => allocate(u64::from(size(types, t)), ap, locals),
        Libfunc::FinalizeLocals => finalize(ap, locals),
        Libfunc::StoreLocal(_) => store(locals),
        _ => Some((locals, 0)),
    }
}

/// What a libfunc makes of the local state of a place.
pub(crate) fn step_at(types: &Types, libfunc: Libfunc, place: &Stored) -> Option<(Locals, u64)>
    requires placed { IsPlaced types.now libfunc }
    requires small { AreSmallLocals place.now.locals }
    ensures { result ≡ locals_of.local_step types.now libfunc place.now.ap place.now.locals }
{
    local_step(types, libfunc, place.ap(), place.locals())
}

/// The fault where the rule of locals doesn't let a libfunc.
pub(crate) fn local_fault(statement: u64, step: Option<(Locals, u64)>) -> Option<RefFault>
    ensures { result ≡ flow.local_fault statement step }
{
    match step {
        Some(_) => None,
        None => Some(RefFault::LocalRule { statement }),
    }
}

/// The fault where a function ends while locals are being placed.
pub(crate) fn end_fault(statement: u64, locals: Locals) -> Option<RefFault>
    ensures { result ≡ flow.end_fault statement locals }
{
    match locals {
        Locals::Before => None,
        Locals::Allocating { .. } => Some(RefFault::LocalRule { statement }),
        Locals::Done => None,
    }
}
