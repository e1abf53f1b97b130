//! Tests of circuits and of what is read, cut and listed of them, against values worked out by hand, and of shelves in
//! memory.
#![tactic(auto)]

#[cfg(test)]
mod tests;
