//! Tests of runs of `expect`, `suspects`, `cover` and `bridges`, over shelves in memory.
#![tactic(auto)]

#[cfg(test)]
mod tests;
