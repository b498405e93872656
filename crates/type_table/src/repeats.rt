//! Which declarations of types are repeated: those whose id was declared before, and those that were written before.

ghost use Rattle.std.specs.Prelude.{◌≡◌, length, IfOk, OnOk, option_map, option_copied};
ghost use Rattle.type_table.specs.Repeats.{AreRepeatsTold, after, again_of, written_of};
ghost use Rattle.type_table.specs.Resolving.{user_in};
ghost use Rattle.type_table.specs.Written.{written_view};

use crate::forms::user_in;
use crate::kind::TypeKind;
use crate::kinds::kind_at;
use crate::rules::TypeRule;
use crate::written::{Written, WrittenSet};
use graph_cycles::Graph;
use sierra_types::{Arg, Name, TypeDecl};
use std::alloc::{AllocError, Global};

/// The bytes of a name, if there is one.
fn copied(alloc: Global, name: Option<&Name>) -> Result<Option<Vec<u8>>, AllocError>
    ensures { IfOk result (λ bytes. option_map (λ b. b.items) bytes ≡ option_copied name.entry) }
{
    match name {
        Some(name) => {
            let bytes = Vec::from_slice(alloc, name.bytes())?;
            Ok(Some(bytes))
        }
        None => Ok(None),
    }
}

/// A declaration as it is written.
fn written(
    alloc: Global,
    kind: TypeKind,
    args: &[Arg],
    targets: &[usize],
) -> Result<Written, AllocError>
    ensures { IfOk result (λ w. written_view w ≡ written_of kind args.now targets.now) }
{
    let user = copied(alloc, user_in(args))?;
    let targets = Vec::from_slice(alloc, targets)?;
    Ok(Written {
        kind,
        user,
        targets,
    })
}

/// Whether a declaration is written as one of these, among which it is then.
fn is_again(
    alloc: Global,
    set: &mut WrittenSet,
    kind: Result<TypeKind, TypeRule>,
    args: &[Arg],
    targets: &[usize],
) -> Result<bool, AllocError>
    ensures told { IfOk result (λ again. again ≡ again_of set.old kind args.now targets.now) }
    ensures after { OnOk result (set.new ≡ after set.old kind args.now targets.now) }
{
    match kind {
        Ok(kind) => {
            let written = written(alloc, kind, args, targets)?;
            let new = set.add(written)?;
            Ok(!new)
        }
        Err(_) => Ok(false),
    }
}

/// For each declaration whether it is repeated, where it is told of each whether its id is, and what kind of type it makes.
pub(crate) fn repeats(
    alloc: Global,
    declarations: &[TypeDecl],
    ids_repeated: &[bool],
    kinds: &[Result<TypeKind, TypeRule>],
    graph: &Graph,
) -> Result<Vec<bool>, AllocError>
    requires each_id { length ids_repeated.now ≡ length declarations.now }
    requires each_kind { length kinds.now ≡ length declarations.now }
    requires each_node { length graph.now ≡ length declarations.now }
    ensures { IfOk result (λ flags. AreRepeatsTold declarations.now kinds.now graph.now ids_repeated.now flags.items) }
{
    let mut set = WrittenSet::new(alloc);
    let mut flags = Vec::with_capacity(alloc, declarations.len())?;
    for (i, declaration) in declarations.iter().enumerate() {
        let kind = kind_at(kinds, i);
        let again = is_again(
            alloc,
            &mut set,
            kind,
            declaration.args.items(),
            graph.targets(i),
        )?;
        flags.push(ids_repeated[i] || again)?;
    }
    Ok(flags)
}
