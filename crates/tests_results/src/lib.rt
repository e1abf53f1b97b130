//! Tests of how records are written and read, beyond what the contracts say, and of the check and the compaction of
//! result files.
#![tactic(auto)]

#[cfg(test)]
mod tests;
