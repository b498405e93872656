//! What is known of declared types before their sizes and abilities are looked at.

ghost use Rattle.std.specs.Prelude.{◌≡◌, length, IfOk};
ghost use Rattle.type_table.specs.Resolved.{IsResolved};

use crate::kind::TypeKind;
use crate::kinds::kinds_told;
use crate::named::all_ids;
use crate::positions::Positions;
use crate::repeats::repeats;
use crate::resolving::{argument_graph, generics};
use crate::rules::TypeRule;
use graph_cycles::{Cycles, Graph, find_cycles};
use sierra_types::TypeDecl;
use std::alloc::{AllocError, Global};

/// What is known of declared types before their sizes and abilities are looked at.
#[derive(Debug, Drop)]
pub(crate) struct Resolved {
    /// Where each id is first.
    pub positions: Positions,
    /// For each declaration the kind of type that it makes, or the rule that its names or the form of its arguments break.
    pub kinds: Vec<Result<TypeKind, TypeRule>>,
    /// For each declaration whether it is repeated.
    pub repeated: Vec<bool>,
    /// The declarations that each one's arguments name.
    pub graph: Graph,
    /// Which declarations are on a cycle, and an order in which those that arguments name come first.
    pub cycles: Cycles,
}

/// Looks up what declarations name.
pub(crate) fn resolve(alloc: Global, declarations: &[TypeDecl]) -> Result<Resolved, AllocError>
    ensures { IfOk result (IsResolved declarations.now) }
{
    let ids = all_ids(alloc, declarations)?;
    let generics = generics(alloc, declarations)?;
    let graph = argument_graph(alloc, &ids.positions, declarations)?;
    let kinds = kinds_told(alloc, declarations, &generics, &graph)?;
    let repeated = repeats(alloc, declarations, &ids.repeated, &kinds, &graph)?;
    let cycles = find_cycles(alloc, &graph)?;
    Ok(Resolved {
        positions: ids.positions,
        kinds,
        repeated,
        graph,
        cycles,
    })
}
