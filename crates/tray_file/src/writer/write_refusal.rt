// Why a record is not written.
ghost use Rattle.std.specs.Prelude.{◌≡◌};
ghost use Rattle.tray_file.specs.writer.WriteRefusals.{write_refusal_number};

use thiserror::Error;

/// Why a record is not written.
#[derive(Clone, Copy, PartialEq, Eq, Debug, Error)]
pub enum WriteRefusal {
    /// A noted cell holds no letter of the alphabet.
    #[error("no letter")]
    NoLetter = 22,
    /// The cells are not n.
    #[error("wrong length")]
    WrongLength = 25,
    /// The note has more than 200 bytes, or a byte outside 32 to 126.
    #[error("bad note")]
    BadNote = 36,
    /// The buffer can't take the record.
    #[error("too small")]
    TooSmall = 38,
}

impl WriteRefusal {
    /// The refusal's number.
    pub fn number(self) -> u32
        ensures { result ≡ write_refusal_number self }
    {
        self as u32
    }
}
