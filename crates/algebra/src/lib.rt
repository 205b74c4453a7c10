// What a field means, its laws, and the theorems that follow from them.
#![tactic(auto)]

mod limits;
mod theorems;

pub use limits::{COEFFICIENTS, LARGEST_CELLS, LARGEST_ROWS, LARGEST_SIZE, LONGEST_SEQUENCE};
pub use theorems::{error_theorems, point_theorems, ring_theorems, worked_example};
