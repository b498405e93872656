//! What a branch costs.

ghost use Rattle.std.specs.Prelude.{◌≡◌, ◌<◌, length};
ghost use Rattle.libfunc_registry.specs.Fam.{fam_of};
ghost use Rattle.cost_table.specs.Costs as costs;
ghost use Rattle.cost_table.specs.Fits.{IsSignature};

use crate::costs::Cost;
use crate::row::row_of;
use crate::sizes::placed;
use crate::{control, dictionaries};
use libfunc_registry::Sig;
use type_table::Types;

/// What a branch of a libfunc costs, by the number of the branch from 0. It takes no memory.
pub fn cost(types: &Types, sig: &Sig, branch: usize) -> Cost
    requires signature { IsSignature types.now sig.now }
    requires branch { branch < length sig.now.branches }
    ensures { result ≡ costs.cost (fam_of types.now sig.now.libfunc) branch }
{
    placed(types, sig);
    let row = row_of(types, sig.libfunc, branch);
    Cost {
        steps: row.steps + dictionaries::share_steps(sig.libfunc),
        checks: row.checks + dictionaries::share_checks(sig.libfunc),
        holes: control::holes(types, sig.libfunc),
        ap: row.ap,
    }
}
