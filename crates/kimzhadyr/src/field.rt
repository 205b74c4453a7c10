// Fields: the two traits, the kinds that the library makes, and why one is refused.
pub use algebra::LARGEST_SIZE;
pub use fields::{
    BinaryField, Field, FieldCause, FieldKind, LetteredField, NoSuchField, PrimeField, all_below,
};
