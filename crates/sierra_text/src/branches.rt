//! Branches of statements.

ghost use Rattle.std.specs.Prelude.{◌≡◌, [], ◌∷◌};
ghost use Rattle.text_reading.specs.Given.{Gives};
ghost use Rattle.text_reading.specs.Reading.{done};
ghost use Rattle.sierra_text.specs.Text.{standard};
ghost use Rattle.sierra_text.specs.Reading.{behind_items_at, target_at, branch_at, branches_at};

use crate::ids::position;
use crate::lists::vars;
use sierra_types::{Branch, List, Target};
use std::alloc::Global;
use text_reading::{Stop, is_next, mark, word};

/// `fallthrough`, or the number of a statement.
#[tactic(auto, unfolding(crate::specs::Reading::target_at))]
fn target(rest: &mut &[u8]) -> Result<Target, Stop<()>>
    ensures { Gives (λ target. target) result rest.new.now (target_at standard rest.old.now) }
{
    if is_next(rest, b'f') {
        word(rest, b"fallthrough")?;
        Ok(Target::Fallthrough)
    } else {
        let n = position(rest)?;
        Ok(Target::To(n))
    }
}

/// A branch.
#[tactic(auto, unfolding(crate::specs::Reading::branch_at))]
fn one_branch(alloc: Global, rest: &mut &[u8]) -> Result<Branch, Stop<()>>
    ensures { Gives (λ branch. branch) result rest.new.now (branch_at standard rest.old.now) }
{
    let target = target(rest)?;
    let results = vars(alloc, rest)?;
    Ok(Branch { target, results })
}

/// The rest of a list of branches, behind the first.
fn branches_behind(alloc: Global, rest: &mut &[u8], first: Branch) -> Result<List<Branch>, Stop<()>>
    ensures { Gives (λ branches. branches) result rest.new.now (behind_items_at (done tt) 125 (branch_at standard) (first ∷ []) rest.old.now) }
{
    let mut branches = List::one(first);
    while !is_next(rest, b'}') {
        let next = one_branch(alloc, rest)?;
        branches.push(alloc, next)?;
    }
    mark(rest, b"}")?;
    Ok(branches)
}

/// The branches of a statement: `->` and results, or branches in `{` and `}`.
#[tactic(auto, unfolding(crate::specs::Reading::branches_at, crate::specs::Reading::one_or_more_at))]
pub fn branches(alloc: Global, rest: &mut &[u8]) -> Result<List<Branch>, Stop<()>>
    ensures { Gives (λ branches. branches) result rest.new.now (branches_at standard rest.old.now) }
{
    if is_next(rest, b'-') {
        mark(rest, b"->")?;
        let results = vars(alloc, rest)?;
        Ok(List::one(Branch {
            target: Target::Fallthrough,
            results,
        }))
    } else {
        mark(rest, b"{")?;
        let first = one_branch(alloc, rest)?;
        branches_behind(alloc, rest, first)
    }
}
