// Limits that several crates share.

/// The greatest safe integer, 2^53 - 1 (ECMA-262, Number.MAX_SAFE_INTEGER). The least one is its negative.
pub const MAX_SAFE_INTEGER: u64 = 9_007_199_254_740_991;
