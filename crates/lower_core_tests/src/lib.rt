//! Tests of `lower_core` by its public calls, apart from it so that its proof is made once and a row of a test doesn't touch it.
#![tactic(auto)]

#[cfg(test)]
mod emitting;
mod laws;
#[cfg(test)]
mod steps;
#[cfg(test)]
mod tests;
