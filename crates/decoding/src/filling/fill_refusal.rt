// Why cells are not filled.
ghost use Rattle.std.specs.Prelude.{◌≡◌};
ghost use Rattle.decoding.specs.filling.Fillings.{fill_number};

use thiserror::Error;

/// Why cells are not filled.
#[derive(Clone, Copy, PartialEq, Eq, Debug, Error)]
pub enum FillRefusal {
    /// The cells or the buffer are not as many as the card's cells, or there is not a sum for each
    /// row.
    #[error("wrong length")]
    WrongLength = 25,
    /// More cells are blank than the card has rows.
    #[error("too blank")]
    TooBlank = 23,
}

impl FillRefusal {
    /// The refusal's number.
    pub fn number(self) -> u32
        ensures { result ≡ fill_number self }
    {
        self as u32
    }
}
