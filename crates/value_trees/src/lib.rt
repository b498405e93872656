//! Values of Sierra's types, with no cells and no addresses: the numbers, structs, enums, arrays and dictionaries that a
//! program computes with.
//!
//! Values come in by constructors or one by one, and go out whole, as parts, or as copies. The meaning of a program makes them
//! and takes them apart; the readers of inputs and the printers of outcomes are the layers above.
#![tactic(auto)]

mod arrays;
mod copying;
mod laws;
mod value;
mod words;

pub use arrays::{append, element, pop_first};
pub use laws::values_of_both;
pub use value::Value;
pub use words::Words;
