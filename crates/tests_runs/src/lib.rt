//! Tests of whole runs over shelves in memory, with files worked out by hand.
#![tactic(auto)]

#[cfg(test)]
mod tests;
