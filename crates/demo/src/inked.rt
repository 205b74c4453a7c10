// An inked tag: what is encoded and inked, and what a line of marks on it is.
mod inspect;
mod monday;
mod refused;

pub use inspect::{CELLS, ROWS, inspect_cells, inspect_line, noted_cells};
pub use monday::ink;
pub use refused::{LineWord, RefusedData, RefusedLine};
