//! A file for each kind of crate.

mod graphs;
mod machine;
mod numbers;
mod outside;
mod runs;
