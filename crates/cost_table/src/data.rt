//! Enums, structs, snapshots and boxes.

ghost use Rattle.std.specs.Prelude.{◌≡◌, ◌<◌, ◌≤◌, ◌^◌, ◌∷◌, ◌++◌, length};
ghost use Rattle.type_trees.specs.Ty as ty;
ghost use Rattle.type_table.specs.Trees.{parts};
ghost use Rattle.type_table.specs.View.{tree_of};
ghost use Rattle.libfunc_registry.specs.Fam.{fam_of, gives};
ghost use Rattle.libfunc_registry.specs.Wanted.{IsBelow, HasPart, IsPlaced};
ghost use Rattle.cost_table.specs.Data as rows;
ghost use Rattle.cost_table.specs.Rows.{match_row};
ghost use Rattle.cost_table.specs.Groups.{if_data};
ghost use Rattle.cost_table.specs.Parts.{ArePartsOf, terms_in, IsSmallPart, all_terms, AreSmall};
ghost use Rattle.cost_table.specs.Terms as terms;
ghost use Rattle.libfunc_registry.specs.Data.{part_at};

use crate::part::{Part, Parts, kept, last};
use crate::row::{FREE, Row, known};
use crate::sizes::{part_count, part_size, size};
use cell_terms::{Slot, Term};
use libfunc_registry::Libfunc;
use type_table::{TypeId, Types};

/// The row of a branch of a libfunc of this group.
pub(crate) fn data_row(types: &Types, libfunc: Libfunc, branch: usize) -> Option<Row>
    requires { IsPlaced types.now libfunc }
    ensures { result ≡ if_data (λ fam. rows.data_row fam branch) (fam_of types.now libfunc) }
{
    match libfunc {
        Libfunc::EnumInit(_, _) => Some(FREE),
        Libfunc::EnumMatch(t) => Some(branch_of_match(part_count(types, t), branch)),
        Libfunc::EnumSnapshotMatch(t) => Some(branch_of_match(part_count(types, t), branch)),
        Libfunc::StructConstruct(_) => Some(FREE),
        Libfunc::StructDeconstruct(_) => Some(FREE),
        Libfunc::StructSnapshotDeconstruct(_) => Some(FREE),
        Libfunc::SnapshotTake(_) => Some(FREE),
        Libfunc::IntoBox(t) => Some(known(1 + size(types, t), 0, 1)),
        Libfunc::Unbox(_) => Some(FREE),
        _ => None,
    }
}

/// The row of a branch of the match of an enum with so many variants: a branch takes a test for each variant before it,
/// and the last two variants share one.
fn branch_of_match(variants: u32, branch: usize) -> Row
    requires { variants ≤ 2 ^ 24 }
    ensures { result ≡ match_row variants branch }
{
    if variants <= 1 {
        return FREE;
    }
    let most = variants - 2;
    let tests = if branch < most as usize {
        branch as u32
    } else {
        most
    };
    known(2 + 2 * tests, 0, tests)
}

/// The terms of the results of a branch of a libfunc of this group.
pub(crate) fn data_parts(types: &Types, libfunc: Libfunc, row: Row, branch: usize) -> Option<Parts>
    requires placed { IsPlaced types.now libfunc }
    requires branch { branch < length (gives (fam_of types.now libfunc)) }
    ensures { ArePartsOf (if_data (λ fam. rows.data_terms row fam branch) (fam_of types.now libfunc)) result }
{
    match libfunc {
        Libfunc::EnumInit(t, index) => Some(variant(types, t, index)),
        Libfunc::EnumMatch(t) => Some(Parts::Single(payload(types, t, branch))),
        Libfunc::EnumSnapshotMatch(t) => Some(Parts::Single(payload(types, t, branch))),
        Libfunc::StructConstruct(t) => Some(Parts::Single(kept(0, size(types, t)))),
        Libfunc::StructDeconstruct(t) => Some(Parts::Single(kept(0, size(types, t)))),
        Libfunc::StructSnapshotDeconstruct(t) => Some(Parts::Single(kept(0, size(types, t)))),
        Libfunc::SnapshotTake(t) => Some(Parts::Double(
            kept(0, size(types, t)),
            kept(0, size(types, t)),
        )),
        Libfunc::IntoBox(_) => Some(Parts::Single(last(row, 1))),
        Libfunc::Unbox(t) => Some(Parts::Single(Part::Run(
            Term::Behind(Slot::Arg(0), 0),
            u64::from(size(types, t)),
        ))),
        _ => None,
    }
}

/// The cells of an enum that is made of a variant: its index, padding, and the payload.
fn variant(types: &Types, t: TypeId, index: u32) -> Parts
    requires { HasPart types.now t index }
    ensures terms { all_terms result ≡ terms.word index ∷ (terms.zeros (rows.padding (tree_of types.now t.0) index) ++ terms.kept 0 (ty.size (part_at (tree_of types.now t.0) index))) }
    ensures small { AreSmall result }
{
    let cells = part_size(types, t, index as usize);
    let padding = size(types, t).saturating_sub(1 + cells);
    Parts::Triple(
        Part::One(Term::Word(u64::from(index))),
        Part::Run(Term::Word(0), u64::from(padding)),
        kept(0, cells),
    )
}

/// The payload of an enum in the branch of a variant: its last cells.
fn payload(types: &Types, t: TypeId, branch: usize) -> Part
    requires { HasPart types.now t branch }
    ensures terms { terms_in result ≡ rows.payload (tree_of types.now t.0) branch }
    ensures small { IsSmallPart result }
{
    let cells = part_size(types, t, branch);
    kept(size(types, t).saturating_sub(cells) as usize, cells)
}
