// The kinds of fields that the library makes.
ghost use Rattle.std.specs.Prelude.{◌≡◌};
ghost use Rattle.fields.specs.FieldKinds.{field_kind_number, KindNamed};

use crate::binary_field::BinaryField;
use crate::lettered_field::LetteredField;
use crate::prime_field::PrimeField;
use thiserror::Error;

/// The kinds of fields that the library makes. Each kind states its number itself, as `KIND`.
#[derive(Clone, Copy, PartialEq, Eq, Debug)]
pub enum FieldKind {
    /// Whole numbers modulo a listed prime: kind number 1.
    Prime,
    /// Polynomials over two elements modulo an irreducible one: kind number 2.
    Binary,
}

/// No kind has the number. Where a card names it, the refusal is 10.
#[derive(Clone, Copy, PartialEq, Eq, Debug, Error)]
#[error("no such field")]
pub struct NoSuchField;

impl FieldKind {
    /// The kind's number.
    pub fn number(self) -> u32
        ensures { result ≡ field_kind_number self }
    {
        match self {
            FieldKind::Prime => PrimeField::KIND,
            FieldKind::Binary => BinaryField::KIND,
        }
    }
}

impl TryFrom<u32> for FieldKind {
    type Error = NoSuchField;

    ghost try_from_gives = { KindNamed };

    fn try_from(number: u32) -> Result<FieldKind, NoSuchField> {
        match number {
            PrimeField::KIND => Ok(FieldKind::Prime),
            BinaryField::KIND => Ok(FieldKind::Binary),
            _ => Err(NoSuchField),
        }
    }
}
