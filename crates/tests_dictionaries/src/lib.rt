//! Tests of tables of answers, of the dictionaries that are made from them and of the choice of baselines, on small
//! ones that were worked out by hand.
#![tactic(auto)]

#[cfg(test)]
mod tests;
