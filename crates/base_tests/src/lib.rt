//! Tests of the crates at the bottom, by their public calls: each call that takes memory succeeds where there is enough, and a
//! few values are as another program computed them. What the calls answer to all arguments is proved in their crates.
#![tactic(auto)]

#[cfg(test)]
mod tests;
