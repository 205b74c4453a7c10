// The longest file; specs/reader/FileLimits.antt has the same for the contracts, which hold the two
// together.

/// The most bytes that a file may have.
pub const LONGEST_FILE: usize = 60_000;
