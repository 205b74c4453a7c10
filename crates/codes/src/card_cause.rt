// Why a card is refused.
ghost use Rattle.std.specs.Prelude.{◌≡◌};
ghost use Rattle.codes.specs.Cards.{card_number};

use thiserror::Error;

/// Why a card is refused: the first rule that its values break.
#[derive(Clone, Copy, PartialEq, Eq, Debug, Error)]
pub enum CardCause {
    /// The cells are not 2 to 256, the rows not 1 to 64 or not fewer than the cells, or the lists
    /// differ in length.
    #[error("bad shape")]
    BadShape = 13,
    /// The field does not admit the alphabet size.
    #[error("no alphabet")]
    NoAlphabet = 14,
    /// A locator is no element, or stands twice.
    #[error("bad locator")]
    BadLocator = 15,
    /// A multiplier is 0 or no element.
    #[error("bad multiplier")]
    BadMultiplier = 16,
}

impl CardCause {
    /// The refusal's number.
    pub fn number(self) -> u32
        ensures { result ≡ card_number self }
    {
        self as u32
    }
}
