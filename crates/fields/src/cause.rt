// Why a field is refused.
ghost use Rattle.std.specs.Prelude.{◌≡◌};
ghost use Rattle.fields.specs.Causes.{field_number};

use thiserror::Error;

/// Why no field is made from a number.
#[derive(Clone, Copy, PartialEq, Eq, Debug, Error)]
pub enum FieldCause {
    /// The number is none of the primes that `PrimeField::new` takes.
    #[error("no prime")]
    NoPrime = 11,
    /// The number does not lie from 2 to 511, or is reducible as a polynomial.
    #[error("bad modulus")]
    BadModulus = 12,
}

impl FieldCause {
    /// The refusal's number.
    pub fn number(self) -> u32
        ensures { result ≡ field_number self }
    {
        self as u32
    }
}
