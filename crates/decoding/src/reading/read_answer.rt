// What a read answers.
ghost use Rattle.std.specs.Prelude.{◌≡◌};
ghost use Rattle.decoding.specs.reading.Reading.{read_number};

use thiserror::Error;

/// How many noted cells differ from the shown word, and how many cells are blank.
#[derive(Clone, Copy, PartialEq, Eq, Debug)]
pub struct Counts {
    /// How many noted cells have another letter than the word.
    pub wrong: usize,
    /// How many cells are blank.
    pub blank: usize,
}

/// Why no word is shown.
#[derive(Clone, Copy, PartialEq, Eq, Debug, Error)]
pub enum ReadRefusal {
    /// The buffer is not of n numbers.
    #[error("wrong length")]
    WrongLength = 25,
    /// More cells are blank than the card has rows.
    #[error("too blank")]
    TooBlank = 23,
    /// At most as many cells are blank as the card has rows, and no codeword is near.
    #[error("lost")]
    Lost = 24,
}

impl ReadRefusal {
    /// The refusal's number.
    pub fn number(self) -> u32
        ensures { result ≡ read_number self }
    {
        self as u32
    }
}
