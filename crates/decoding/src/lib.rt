// Errors and erasures: filling blank cells, encoding, and reading.
#![tactic(auto)]

mod encoding;
mod filling;
mod reading;

pub use encoding::{EncodeRefusal, code_examples, encode};
pub use filling::{FillRefusal, fill};
pub use reading::{Counts, ReadRefusal, read_cells};
