// The prime kind: whole numbers modulo a listed prime.
mod euclid;

ghost use Rattle.std.specs.Prelude.{◌≡◌, Decides};
ghost use Rattle.algebra.specs.Alphabet.{Alphabet};
ghost use Rattle.fields.specs.Modulo.{Listed};
ghost use Rattle.fields.specs.PrimeModulus.{listed_laws};

use crate::cause::FieldCause;
use crate::field::Field;
use crate::lettered_field::LetteredField;
use crate::prime_field::euclid::inverse;

/// The prime kind: whole numbers modulo a listed prime. The elements are the numbers below it.
#[derive(Clone, Copy)]
pub struct PrimeField {
    prime: u32,
    ghost listed: { Listed prime },
}

// The primes that a field may be made from.
const PRIMES: [u32; 13] = [2, 3, 5, 7, 11, 13, 17, 19, 23, 29, 31, 37, 251];

impl PrimeField {
    ghost use Rattle.fields.specs.Prime.{PrimeFieldMade};

    /// The field modulo `prime`. Refused with 11 unless that is one of the listed primes: those up
    /// to 37, and 251.
    pub fn new(prime: u32) -> Result<PrimeField, FieldCause>
        ensures { PrimeFieldMade prime result }
    {
        if PRIMES.contains(&prime) {
            Ok(PrimeField { prime })
        } else {
            Err(FieldCause::NoPrime)
        }
    }

    /// The prime that the field was made from.
    pub fn prime(&self) -> u32
        ensures { result ≡ self.now.prime }
    {
        self.prime
    }
}

impl Field for PrimeField {
    ghost use Rattle.fields.specs.Prime.{prime_meaning, prime_accepted};

    ghost meaning = { prime_meaning };

    ghost accepted = { prime_accepted };

    ghost lawful = { λ x accepted. listed_laws x.prime accepted };

    fn size(&self) -> u32 {
        self.prime()
    }

    fn add(&self, a: u32, b: u32) -> u32 {
        let p = self.prime;
        if a < p && b < p { (a + b) % p } else { 0 }
    }

    fn sub(&self, a: u32, b: u32) -> u32 {
        let p = self.prime;
        if a < p && b < p { (a + (p - b)) % p } else { 0 }
    }

    fn mul(&self, a: u32, b: u32) -> u32 {
        let p = self.prime;
        if a < p && b < p { a * b % p } else { 0 }
    }

    fn invert(&self, a: u32) -> Option<u32> {
        let p = self.prime;
        if a == 0 || a >= p {
            return None;
        }
        Some(inverse(p, a))
    }
}

impl LetteredField for PrimeField {
    ghost use Rattle.fields.specs.Prime.{prime_meaning};

    const KIND: u32 = 1;

    // Fewer than all would not be closed: 1 + (letters − 1) is no letter.
    fn admits(&self, letters: u32) -> bool
        ensures closed { Decides result (Alphabet (prime_meaning self.now).arithmetic letters) }
        ensures only { Decides result (letters ≡ self.now.prime) }
    {
        letters == self.prime
    }
}
