//! The types that a signature takes and gives, as they are sought in the table.

use type_table::{Shape, TypeId};
use type_trees::Num;

/// A type of a signature.
#[derive(Clone, Copy)]
pub(crate) enum Wanted {
    /// The type at this position.
    At(TypeId),
    /// The type of this shape.
    Shaped(Shape),
    /// The type of snapshots of the one at this position.
    Snap(TypeId),
    /// A box of the type of snapshots.
    BoxOfSnap(TypeId),
    /// A snapshot of an array of the type.
    SnapshotOfArray(TypeId),
    /// The array of the accesses of a dictionary of the number.
    Entries(Num),
    /// A variant of the enum at this position, by its index.
    Variant(TypeId, u32),
}

/// The types of arguments, or of the results of a branch, in order.
#[derive(Clone, Copy)]
pub(crate) enum Listed {
    /// None.
    Nothing,
    /// One.
    One(Wanted),
    /// Two.
    Two(Wanted, Wanted),
    /// Three.
    Three(Wanted, Wanted, Wanted),
    /// The members of the struct at this position.
    Parts(TypeId),
    /// The types of snapshots of its members.
    Snaps(TypeId),
    /// The parameters of the function at this position.
    Params(usize),
    /// The results of the function at this position.
    Results(usize),
}

/// The types of the results of each branch, branch 0 first.
#[derive(Clone, Copy)]
pub(crate) enum Branches {
    /// One branch.
    Single(Listed),
    /// Two branches.
    Double(Listed, Listed),
    /// A branch for each variant of the enum at this position, with that variant.
    EachPart(TypeId),
    /// A branch for each variant, with the type of its snapshots.
    EachSnap(TypeId),
}
