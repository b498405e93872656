//! Tests of `typed_values` by its public calls, apart from it so that its proof is made once and a row of a test does not touch it.
#![tactic(auto)]

#[cfg(test)]
mod tests;
