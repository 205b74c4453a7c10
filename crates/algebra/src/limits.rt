// The largest sizes, each named once; specs/Limits.antt has the same for the contracts, which hold
// the two together.

// The most elements that a field may have are a power of 2, by this exponent.
const SIZE_BITS: u32 = 8;

/// The most elements that a field may have.
pub const LARGEST_SIZE: u32 = 1 << SIZE_BITS;

/// The most cells that a card may have.
pub const LARGEST_CELLS: usize = 256;

/// The most rows that a card may have.
pub const LARGEST_ROWS: usize = 64;

/// The longest sequence that is realised: as many numbers as a card has rows at most.
pub const LONGEST_SEQUENCE: usize = LARGEST_ROWS;

/// The coefficients of a polynomial whose degree is at most that length.
pub const COEFFICIENTS: usize = LONGEST_SEQUENCE + 1;
