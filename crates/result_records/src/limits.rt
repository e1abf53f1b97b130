//! The limits of a result and of its budgets.

/// How many bytes a result has at most.
pub const RESULT_LIMIT: u64 = 1_099_511_627_776;

/// How many blocks of the stream there are at most.
pub const BLOCKS_LIMIT: u32 = 65_536;

/// How many closed leaves a tree has at most.
pub const CUBES_LIMIT: u32 = 1_048_576;

/// How many learned clauses a log has at most.
pub const CONFLICTS_LIMIT: u32 = 100_000;
