//! The signatures of declarations.

ghost use Rattle.std.specs.Prelude.{◌≡◌, ◌≢◌, IfOk, IfErr};
ghost use Rattle.libfunc_registry.specs.Refusals.{Refused, FirstFault};
ghost use Rattle.libfunc_registry.specs.Signature.{HasSignature, HasSignatures};
ghost use Rattle.libfunc_registry.specs.Wanted.{IsPlaced};
ghost use Rattle.libfunc_registry.specs.Judging.{IsSignature};

use crate::able::is_able;
use crate::columns::{gives, takes};
use crate::families::libfunc_named;
use crate::finding::{find_branches, find_list, keeps};
use crate::libfunc::Libfunc;
use crate::sig::{Sig, SigFault};
use sierra_types::{LibfuncDecl, List, Name};
use std::alloc::{AllocError, Global};
use type_table::Types;

/// The signature of a libfunc, if all its types are declared.
fn declared(alloc: Global, types: &Types, libfunc: Libfunc) -> Result<Option<Sig>, AllocError>
    requires { IsPlaced types.now libfunc }
    ensures { IfOk result (IsSignature types.now libfunc) }
{
    let Some(params) = find_list(alloc, types, takes(libfunc))? else {
        return Ok(None);
    };
    let Some(branches) = find_branches(alloc, types, gives(libfunc))? else {
        return Ok(None);
    };
    Ok(Some(Sig {
        libfunc,
        params,
        branches,
    }))
}

/// A name of its own with the same bytes.
fn copied(alloc: Global, name: &Name) -> Result<Name, AllocError>
    ensures { IfOk result (λ copy. copy ≡ name.now) }
{
    Name::new(alloc, name.bytes())
}

/// The signature of one declaration, or why it is refused: its generic name is unknown, its arguments are wrong or lead to
/// a type that isn't declared, or a type lacks an ability.
pub fn signature(alloc: Global, types: &Types, decl: &LibfuncDecl) -> Result<Sig, SigFault>
    ensures found { IfOk result (λ sig. HasSignature types.now decl.now sig) }
    ensures refused { IfErr result (λ fault. fault ≢ SigFault.Memory → Refused types.now decl.now fault) }
{
    keeps(types);
    let Some(made) = libfunc_named(types, decl.generic.bytes(), decl.args.items()) else {
        return Err(SigFault::UnknownLibfunc(copied(alloc, &decl.generic)?));
    };
    let Some(libfunc) = made else {
        return Err(SigFault::BadArgs(copied(alloc, &decl.id)?));
    };
    let Some(sig) = declared(alloc, types, libfunc)? else {
        return Err(SigFault::BadArgs(copied(alloc, &decl.id)?));
    };
    if is_able(types, libfunc) {
        Ok(sig)
    } else {
        Err(SigFault::AbilityMissing(copied(alloc, &decl.id)?))
    }
}

/// The signatures of all declarations, in order, or the first refusal.
pub fn signatures(
    alloc: Global,
    types: &Types,
    libfuncs: &[LibfuncDecl],
) -> Result<List<Sig>, SigFault>
    ensures found { IfOk result (λ sigs. HasSignatures types.now libfuncs.now sigs) }
    ensures refused { IfErr result (λ fault. fault ≢ SigFault.Memory → FirstFault types.now libfuncs.now fault) }
{
    let mut sigs = Vec::with_capacity(alloc, libfuncs.len())?;
    for decl in libfuncs {
        let sig = signature(alloc, types, decl)?;
        sigs.push(sig).map_err(AllocError::from)?;
    }
    Ok(List::new(sigs))
}
