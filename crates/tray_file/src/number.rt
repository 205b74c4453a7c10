// Numbers in groups of seven bits, the lowest group first: reading and writing them.
mod cause;
mod examples;
mod limits;
mod reading;
mod writing;

pub(crate) use cause::NumberCause;
pub use examples::number_examples;
pub(crate) use limits::LARGEST_NUMBER;
pub(crate) use reading::{NumberRead, read_number};
pub(crate) use writing::{number_length, write_number};
