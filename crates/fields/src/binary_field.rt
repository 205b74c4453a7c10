// The binary kind: polynomials over two elements modulo an irreducible one.
mod euclid;
mod irreducible;
mod laws;
mod polynomial;

ghost use Rattle.std.specs.Prelude.{◌≤◌, ◌≡◌, ◌^◌, ◌⊎◌, Decides};
ghost use Rattle.algebra.specs.Alphabet.{Alphabet};
ghost use Rattle.fields.specs.LongDivision.{Degree};
ghost use Rattle.fields.specs.Irreducible.{Unfactored};
ghost use Rattle.fields.specs.BinaryArithmetic.{largest_modulus};

use crate::binary_field::euclid::inverse;
use crate::binary_field::irreducible::is_irreducible;
use crate::binary_field::polynomial::{degree_of, product};
use crate::cause::FieldCause;
use crate::field::Field;
use crate::lettered_field::LetteredField;
use algebra::LARGEST_SIZE;
pub use laws::polynomial_laws;

/// The binary kind: polynomials over two elements modulo an irreducible one. A number stands for
/// the polynomial whose coefficient of X^i is its bit i. With k the degree of the modulus, the
/// elements are the numbers below 2^k.
#[derive(Clone, Copy)]
pub struct BinaryField {
    modulus: u32,
    degree: u32,
    ghost nonconstant: { 2 ≤ modulus },
    ghost unfactored: { Unfactored modulus },
    ghost leading: { Degree modulus degree },
    ghost bounded: { modulus ≤ largest_modulus },
}

// The largest modulus: every one up to it makes a field of at most the largest size.
const LARGEST_MODULUS: u32 = 2 * LARGEST_SIZE - 1;

impl BinaryField {
    ghost use Rattle.fields.specs.Binary.{BinaryFieldMade};

    /// The field of polynomials modulo `modulus`, whose bit i is the coefficient of X^i. Refused
    /// with 12 unless the modulus lies from 2 to 511 and is irreducible.
    pub fn new(modulus: u32) -> Result<BinaryField, FieldCause>
        ensures { BinaryFieldMade modulus result }
    {
        if modulus > LARGEST_MODULUS || !is_irreducible(modulus) {
            return Err(FieldCause::BadModulus);
        }
        Ok(BinaryField {
            modulus,
            degree: degree_of(modulus),
        })
    }

    /// The modulus that the field was made from.
    pub fn modulus(&self) -> u32
        ensures { result ≡ self.now.modulus }
    {
        self.modulus
    }
}

impl Field for BinaryField {
    ghost use Rattle.fields.specs.Binary.{binary_meaning, binary_accepted};
    ghost use Rattle.fields.specs.BinaryModulus.{binary_laws, modulus_size};

    ghost meaning = { binary_meaning };

    ghost accepted = { binary_accepted };

    ghost lawful = { λ x accepted. binary_laws x.modulus x.degree accepted.degree
        accepted.irreducible (modulus_size x.modulus x.degree accepted.degree accepted.bounded) };

    fn size(&self) -> u32 {
        1 << self.degree
    }

    fn add(&self, a: u32, b: u32) -> u32 {
        let q = self.size();
        if a < q && b < q { a ^ b } else { 0 }
    }

    // Every element is its own negative.
    fn sub(&self, a: u32, b: u32) -> u32 {
        self.add(a, b)
    }

    fn mul(&self, a: u32, b: u32) -> u32 {
        let q = self.size();
        if a < q && b < q {
            product(a, b, self.modulus, self.degree)
        } else {
            0
        }
    }

    fn invert(&self, a: u32) -> Option<u32> {
        let q = self.size();
        if a == 0 || a >= q {
            return None;
        }
        Some(inverse(a, self.modulus))
    }
}

impl LetteredField for BinaryField {
    ghost use Rattle.fields.specs.Binary.{binary_meaning};

    const KIND: u32 = 2;

    // Whatever is closed and has a third letter has X, so every power of X and every sum of those.
    fn admits(&self, letters: u32) -> bool
        ensures closed { Decides result (Alphabet (binary_meaning self.now).arithmetic letters) }
        ensures only { Decides result ((letters ≡ 2) ⊎ (letters ≡ 2 ^ self.now.degree)) }
    {
        letters == 2 || letters == self.size()
    }
}
