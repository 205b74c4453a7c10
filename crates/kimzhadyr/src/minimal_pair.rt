// The minimal pair of a sequence.
pub use algebra::{COEFFICIENTS, LONGEST_SEQUENCE};
pub use minimal_pairs::{RealiseRefusal, realise};
