//! Tests of what evidence is made of, and of its checker, with logs and trees worked out by hand and with those that
//! the solver returns.
#![tactic(auto)]

#[cfg(test)]
mod tests;
