//! Tests of the simulators, the class table, pair sets and the search, against values worked out by hand.
#![tactic(auto)]

#[cfg(test)]
mod tests;
