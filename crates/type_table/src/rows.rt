//! The rows of types that are known.

ghost use Rattle.std.specs.Prelude.{◌≡◌, ◌<◌, ℕ, IfOk, Some, None, length, option_copied, slice_index_or};
ghost use Rattle.graph_cycles.specs.Graph.{targets_of};
ghost use Rattle.type_table.specs.declared.outcome.Known.{Known};
ghost use Rattle.type_table.specs.Found.{IsKnownAt};
ghost use Rattle.type_table.specs.Made.{AreMade, IsMadeOf, ids_at, info_told};
ghost use Rattle.type_table.specs.Refusals.{arguments};

use crate::facts::Facts;
use crate::forms::user_in;
use crate::outcome::Known;
use crate::row::Row;
use crate::type_id::{TypeId, TypeInfo};
use graph_cycles::Graph;
use sierra_types::{List, Name, TypeDecl};
use std::alloc::{AllocError, Global};

/// What is told of a type with these facts, which is within the limits.
fn info_told(facts: Facts) -> TypeInfo
    ensures { result ≡ info_told facts }
{
    TypeInfo {
        size: facts.size,
        storable: facts.storable,
        drop: facts.drop,
        dup: facts.dup,
        zero_sized: facts.size == 0,
        holds_dict: facts.holds_dict,
    }
}

/// The name once more, if there is one.
fn copied(alloc: Global, name: Option<&Name>) -> Result<Option<Name>, AllocError>
    ensures { IfOk result (λ copy. copy ≡ option_copied name.entry) }
{
    match name {
        Some(name) => {
            let own = Name::new(alloc, name.bytes())?;
            Ok(Some(own))
        }
        None => Ok(None),
    }
}

/// The types at these positions.
fn ids_at(alloc: Global, targets: &[usize]) -> Result<Vec<TypeId>, AllocError>
    ensures { IfOk result (λ ids. ids.items ≡ ids_at targets.now) }
{
    targets.iter().map(|t| TypeId(*t)).collect(alloc)
}

/// The row of a declaration of which this is known, and whose arguments name the types at these positions.
fn row_of(
    alloc: Global,
    declaration: &TypeDecl,
    known: Known,
    targets: &[usize],
) -> Result<Row, AllocError>
    ensures { IfOk result (λ row. IsMadeOf declaration.now known targets.now row) }
{
    let generic = Name::new(alloc, declaration.generic.bytes())?;
    let user = copied(alloc, user_in(declaration.args.items()))?;
    let members = ids_at(alloc, targets)?;
    Ok(Row {
        kind: known.kind,
        generic,
        user,
        members: List::new(members),
        info: info_told(known.facts),
        plain: known.facts.plain,
    })
}

/// What is known of the type at a position.
fn known_at(known: &[Option<Known>], i: usize) -> Known
    requires { (k : Known) × (slice_index_or known.now i None ≡ Some k) }
    ensures { slice_index_or known.now i None ≡ Some result }
{
    match known.get(i).copied().flatten() {
        Some(known) => known,
        None => unreachable!(),
    }
}

/// The rows of all declarations, whose types are known.
pub(crate) fn rows_of(
    alloc: Global,
    declarations: &[TypeDecl],
    known: &[Option<Known>],
    graph: &Graph,
) -> Result<Vec<Row>, AllocError>
    requires known { (i : ℕ) → i < length declarations.now → (k : Known) × (slice_index_or known.now i None ≡ Some k) × IsKnownAt declarations.now i k }
    requires graph { graph.now ≡ arguments declarations.now }
    ensures { IfOk result (λ rows. AreMade declarations.now rows.items) }
{
    let mut rows = Vec::with_capacity(alloc, declarations.len())?;
    for (i, declaration) in declarations.iter().enumerate() {
        let here = known_at(known, i);
        let row = row_of(alloc, declaration, here, graph.targets(i))?;
        rows.push(row).map_err(AllocError::from)?;
    }
    Ok(rows)
}
