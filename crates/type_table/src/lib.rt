//! The table of a program's types: what each declared type is, its size and abilities, and the parameters and results of
//! each function.
//!
//! The tree of a program comes in; its table goes out, or the first refusal. The signatures of libfuncs and all that
//! checks, runs or lowers a program read the table.
#![tactic(auto)]

mod abilities;
mod facts;
mod fault;
mod faults;
mod forms;
mod functions;
mod generic;
mod judging;
mod kind;
mod kinds;
mod laws;
mod making;
mod named;
mod outcome;
mod positions;
mod repeats;
mod resolved;
mod resolving;
mod row;
mod rows;
mod rules;
mod shape_index;
mod shapes;
mod signatures;
mod sizing;
mod type_id;
mod types;
mod written;

pub use fault::TypeFault;
pub use kind::{Shape, TypeKind};
pub use laws::{
    makes_type, never_both, never_memory, one_fault, one_table, ordinary_parts, types_or_fault,
};
pub use making::table;
pub use named::libfunc_positions;
pub use positions::Positions;
pub use type_id::{TypeId, TypeInfo};
pub use types::Types;
