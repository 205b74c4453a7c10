// The largest number; specs/number/Numbers.antt has the same for the contracts, which hold the two
// together.

pub(crate) const LARGEST_NUMBER: u32 = 65_535;
