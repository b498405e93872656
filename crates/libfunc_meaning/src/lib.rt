//! What each libfunc does with values.
//!
//! The signature of a libfunc and the values of its arguments come in; the branch that is taken and its results go out. The
//! meaning of a program goes statement by statement through it. The definitions are in `specs/`, a file for each group of
//! families, and the code has a file for each of these too.
#![tactic(auto)]

mod applying;
mod arrays;
mod control;
mod data;
mod dictionaries;
mod felts;
mod gas;
mod integers;
mod laws;
mod taking;

pub use applying::apply;
pub use laws::{declared_is_proper, never_stuck, one_answer, short_is_counted, types_are_kept};
