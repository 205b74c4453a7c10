// A checked card, over a field of any kind that the library makes.
ghost use Rattle.std.specs.Prelude.{◌≡◌};
ghost use Rattle.codes.specs.Code.{code_of};
ghost use Rattle.codes.specs.AnyCards.{any_code};

use crate::card::Card;
use crate::code::CodeRef;
use fields::{BinaryField, PrimeField};

/// A checked card, over a field of any kind that the library makes.
#[derive(Drop)]
pub enum AnyCard {
    /// Over a field of the prime kind.
    Prime(Card<PrimeField>),
    /// Over a field of the binary kind.
    Binary(Card<BinaryField>),
}

impl AnyCard {
    /// The card's plain values, lent.
    pub fn code(&self) -> CodeRef<'_>
        ensures { code_of result ≡ any_code self.now }
    {
        match self {
            AnyCard::Prime(card) => card.code(),
            AnyCard::Binary(card) => card.code(),
        }
    }
}
