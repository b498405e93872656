//! The tool, from the arguments of its command to the bytes that it writes and the status that it ends with.
//!
//! Arguments, files and a place for the output come in. The program stands on it, and so does everyone who wants a run
//! checked without a file system: the files and the output can be any that keep the promises of their traits.
#![tactic(auto)]

mod answer;
mod assemble;
mod check;
mod command;
mod evaluate;
mod execute;
mod gas;
mod inputs;
mod laws;
mod lines;
mod output;
mod show;
mod tool;
mod work;

pub use answer::{Answer, Bytes};
pub use command::{Assemble, Check, Command, Evaluate, Execute, Gas, Show, Source};
pub use laws::{one_answer, some_answer};
pub use tool::{Shelf, sierra_tool};
