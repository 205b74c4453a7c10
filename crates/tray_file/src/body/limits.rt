// The longest note; specs/body/Notes.antt has the same for the contracts, which hold the two
// together.

/// The most bytes that a note may have.
pub const LONGEST_NOTE: usize = 200;
