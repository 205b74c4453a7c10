// Theorems and worked examples: calls that do nothing, and whose clauses are what is proved. That
// exactly one outcome of a read is possible is the clause `one` of `Tag::read`.
pub use algebra::{error_theorems, point_theorems, ring_theorems, worked_example};
pub use decoding::code_examples;
pub use fields::polynomial_laws;
pub use minimal_pairs::worked_pairs;
pub use tray_file::number_examples;
