//! Steps of the machine by instructions: what each instruction does, paths of steps, and the words that expressions stand for.
//!
//! It has no code. The machine's steps by flags come in, and laws on instructions and paths go out; the code of fragments,
//! the layout of a program's code and its runs stand on them.
#![tactic(auto)]

mod laws;

pub use laws::{
    instructions_execute, instructions_step, paths_join, readings_extend, readings_lowered,
};
