//! Tests of tester logs, of lists of vectors, of the fault numbers that a log points to or ranks, of adaptive plans, of
//! the texts of simulations, of suspects, and of bridges.
#![tactic(auto)]

#[cfg(test)]
mod tests;
