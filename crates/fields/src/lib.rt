// Fields, and the kinds that the library makes.
#![tactic(auto)]

mod binary_field;
mod cause;
mod elements;
mod field;
mod kind;
mod lettered_field;
mod prime_field;

pub use binary_field::{BinaryField, polynomial_laws};
pub use cause::FieldCause;
pub use elements::all_below;
pub use field::Field;
pub use kind::{FieldKind, NoSuchField};
pub use lettered_field::LetteredField;
pub use prime_field::PrimeField;
