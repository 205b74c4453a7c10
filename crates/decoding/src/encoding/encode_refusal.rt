// Why data are not encoded.
ghost use Rattle.std.specs.Prelude.{◌≡◌};
ghost use Rattle.decoding.specs.encoding.Encodings.{encode_number};

use thiserror::Error;

/// Why data are not encoded.
#[derive(Clone, Copy, PartialEq, Eq, Debug, Error)]
pub enum EncodeRefusal {
    /// The alphabet size is below the field's size.
    #[error("part alphabet")]
    PartAlphabet = 26,
    /// The data are not n − r numbers, or the buffer is not of n.
    #[error("wrong length")]
    WrongLength = 25,
    /// A number of the data is no letter of the alphabet.
    #[error("no letter")]
    NoLetter = 22,
}

impl EncodeRefusal {
    /// The refusal's number.
    pub fn number(self) -> u32
        ensures { result ≡ encode_number self }
    {
        self as u32
    }
}
