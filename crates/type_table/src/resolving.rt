//! What the arguments of declared types name.

ghost use Rattle.std.specs.Prelude.{◌≡◌, ◌∷◌, [], ℕ, List, map, IfOk, MatchOption, option_copied};
ghost use Rattle.type_table.specs.Named.{generic_named};
ghost use Rattle.type_table.specs.Resolving.{target_of, targets_in, unknown_of, unknown_in};

use crate::generic::{Generic, generic_named};
use crate::positions::Positions;
use graph_cycles::Graph;
use sierra_types::{Arg, Name, TypeDecl};
use std::alloc::{AllocError, Global};

/// The position that an argument names, if it is a declared type.
fn target_of(positions: &Positions, arg: &Arg) -> Option<usize>
    ensures { result ≡ target_of positions.now arg.now }
{
    match arg {
        Arg::OfType(id) => positions.find(id.bytes()),
        Arg::User(_) | Arg::Callee(_) | Arg::Number { .. } => None,
    }
}

/// The id of an argument that is a type which isn't declared.
fn unknown_of<'a>(positions: &Positions, arg: &'a Arg) -> Option<&'a Name>
    ensures { option_copied result ≡ unknown_of positions.now arg.now }
{
    match arg {
        Arg::OfType(id) => match positions.find(id.bytes()) {
            Some(_) => None,
            None => Some(id),
        },
        Arg::User(_) | Arg::Callee(_) | Arg::Number { .. } => None,
    }
}

/// The positions that arguments name, in order.
fn targets_in(alloc: Global, positions: &Positions, args: &[Arg]) -> Result<Vec<usize>, AllocError>
    ensures { IfOk result (λ targets. targets.items ≡ targets_in positions.now args.now) }
{
    args.iter()
        .filter_map(|arg| target_of(positions, arg))
        .collect(alloc)
}

/// The declarations that each one's arguments name.
pub(crate) fn argument_graph(
    alloc: Global,
    positions: &Positions,
    declarations: &[TypeDecl],
) -> Result<Graph, AllocError>
    ensures { IfOk result (λ graph. graph ≡ map (λ d. targets_in positions.now d.args) declarations.now) }
{
    let mut graph = Graph::new(alloc);
    for declaration in declarations {
        let targets = targets_in(alloc, positions, declaration.args.items())?;
        graph.add(&targets)?;
    }
    Ok(graph)
}

/// The generic type of each declaration, if its name is one.
pub(crate) fn generics(
    alloc: Global,
    declarations: &[TypeDecl],
) -> Result<Vec<Option<Generic>>, AllocError>
    ensures { IfOk result (λ generics. generics.items ≡ map (λ d. generic_named d.generic) declarations.now) }
{
    let mut generics = Vec::with_capacity(alloc, declarations.len())?;
    for declaration in declarations {
        generics.push(generic_named(declaration.generic.bytes()))?;
    }
    Ok(generics)
}

/// The first of the arguments that is a type which isn't declared.
pub(crate) fn first_unknown<'a>(positions: &Positions, args: &'a [Arg]) -> Option<&'a Name>
    ensures { MatchOption result (unknown_in positions.now args.now ≡ []) (λ id. (more : List (List ℕ)) × (unknown_in positions.now args.now ≡ id.now ∷ more)) }
{
    for arg in args {
        if let Some(id) = unknown_of(positions, arg) {
            return Some(id);
        }
    }
    None
}
