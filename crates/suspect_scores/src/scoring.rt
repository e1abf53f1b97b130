//! How a number's answer to a pattern fits what a log says.

/// At how many positions of a line a number's answer hits, misses and is false.
#[derive(Clone, Copy)]
pub(crate) struct LineScore {
    pub(crate) hit_bits: u64,
    pub(crate) missed_bits: u64,
    pub(crate) false_bits: u64,
}
