//! What is found of each declaration, and the first rule that is broken.

ghost use Rattle.std.specs.Prelude.{◌≡◌, ◌<◌, ℕ, IfOk, Some, None, length, option_map, slice_get, slice_index_or, slice_set, Contains};
ghost use Rattle.graph_cycles.specs.Graph.{OnCycle};
ghost use Rattle.sierra_types.specs.declared.program.TypeDecl.{TypeDecl};
ghost use Rattle.type_table.specs.Outcomes.{facts_at, found_of, parts_at};
ghost use Rattle.type_table.specs.Found.{IsFoundOf, IsRightAt};
ghost use Rattle.type_table.specs.Judged.{AreJudged, first_after, known_of};
ghost use Rattle.type_table.specs.Refusals.{arguments};
ghost use Rattle.type_table.specs.Resolved.{IsResolved};
ghost use Rattle.type_table.specs.Rows.{targets};

use crate::facts::Facts;
use crate::kind::TypeKind;
use crate::kinds::kind_at;
use crate::outcome::{Known, Outcome, found_of};
use crate::resolved::Resolved;
use crate::rules::TypeRule;
use sierra_types::TypeDecl;
use std::alloc::{AllocError, Global};

/// A rule that a declaration breaks.
#[derive(Clone, Copy, Debug, Drop)]
pub(crate) struct Broken {
    /// The declaration's position.
    pub position: usize,
    /// The first rule that it breaks.
    pub rule: TypeRule,
}

/// What is found of all declarations.
#[derive(Debug, Drop)]
pub(crate) struct Judged {
    /// The types that are known, by position.
    pub known: Vec<Option<Known>>,
    /// The first rule that is broken, in declared order.
    pub first: Option<Broken>,
}

/// The facts of the type at a position, if one is known.
fn facts_at(known: &[Option<Known>], t: usize) -> Option<Facts>
    ensures { result ≡ facts_at known.now t }
{
    match known.get(t).copied().flatten() {
        Some(known) => Some(known.facts),
        None => None,
    }
}

/// The facts of the types at these positions, if all are known.
fn parts_at(
    alloc: Global,
    known: &[Option<Known>],
    targets: &[usize],
) -> Result<Option<Vec<Facts>>, AllocError>
    ensures { IfOk result (λ parts. option_map (λ p. p.items) parts ≡ parts_at known.now targets.now) }
{
    let mut parts = Vec::with_capacity(alloc, targets.len())?;
    for t in targets {
        match facts_at(known, *t) {
            Some(facts) => parts.push(facts)?,
            None => return Ok(None),
        }
    }
    Ok(Some(parts))
}

/// What is found of a declaration whose arguments fit a kind of type, and name the types at these positions.
fn found_at(
    alloc: Global,
    declaration: &TypeDecl,
    kind: TypeKind,
    known: &[Option<Known>],
    targets: &[usize],
    repeated: bool,
) -> Result<Outcome, AllocError>
    ensures { IfOk result (λ outcome. outcome ≡ found_of declaration.now kind (parts_at known.now targets.now) repeated) }
{
    match parts_at(alloc, known, targets)? {
        Some(parts) => Ok(found_of(declaration, kind, Some(&parts), repeated)),
        None => Ok(found_of(declaration, kind, None, repeated)),
    }
}

/// What is found of the declaration at a position, where types that its arguments name are known, if it is on no cycle.
fn judge(
    alloc: Global,
    declarations: &[TypeDecl],
    resolved: &Resolved,
    known: &[Option<Known>],
    i: usize,
) -> Result<Outcome, AllocError>
    requires resolved { IsResolved declarations.now resolved.now }
    requires below { i < length declarations.now }
    requires known { (d : TypeDecl) → slice_get declarations.now i ≡ Some d → (OnCycle (arguments declarations.now) i → ⊥) →
        (t : ℕ) → Contains (targets declarations.now d) t → IsRightAt declarations.now t (slice_index_or known.now t None) }
    ensures { IfOk result (λ outcome. (d : TypeDecl) → slice_get declarations.now i ≡ Some d → IsFoundOf declarations.now known.now i d outcome) }
{
    let declaration = &declarations[i];
    let kind = match kind_at(&resolved.kinds, i) {
        Ok(kind) => kind,
        Err(rule) => return Ok(Outcome::Broken(rule)),
    };
    if resolved.cycles.is_cyclic(i) {
        return Ok(Outcome::Broken(TypeRule::NoCycle));
    }
    let targets = resolved.graph.targets(i);
    found_at(
        alloc,
        declaration,
        kind,
        known,
        targets,
        resolved.repeated[i],
    )
}

/// Notes what is found of the declaration at a position: its type, if it has one, and the first rule that is broken.
fn note(
    known: &mut Vec<Option<Known>>,
    first: Option<Broken>,
    i: usize,
    outcome: Outcome,
) -> Option<Broken>
    requires { i < length known.old.items }
    ensures known { known.new.items ≡ slice_set known.old.items i (known_of outcome) }
    ensures first { result ≡ first_after first i outcome }
{
    match outcome {
        Outcome::Type(here) => {
            known[i] = Some(here);
            first
        }
        Outcome::Hidden => {
            known[i] = None;
            first
        }
        Outcome::Broken(rule) => {
            known[i] = None;
            match first {
                Some(earlier) if earlier.position < i => first,
                _ => Some(Broken { position: i, rule }),
            }
        }
    }
}

/// Goes over the declarations in an order in which those that arguments name come first.
pub(crate) fn judge_all(
    alloc: Global,
    declarations: &[TypeDecl],
    resolved: &Resolved,
) -> Result<Judged, AllocError>
    requires { IsResolved declarations.now resolved.now }
    ensures { IfOk result (λ judged. AreJudged declarations.now judged.first judged.known.items) }
{
    let mut known = vec![in alloc; None; declarations.len()]?;
    let mut first = None;
    for i in resolved.cycles.order() {
        let outcome = judge(alloc, declarations, resolved, &known, *i)?;
        first = note(&mut known, first, *i, outcome);
    }
    Ok(Judged { known, first })
}
