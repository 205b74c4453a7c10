// Why a note is refused.
ghost use Rattle.std.specs.Prelude.{◌≡◌};
ghost use Rattle.tags.specs.tag.Tags.{note_number};

use thiserror::Error;

/// Why a note is refused.
#[derive(Clone, Copy, PartialEq, Eq, Debug, Error)]
pub enum NoteRefusal {
    /// The cell is not from 1 to n.
    #[error("no such cell")]
    NoSuchCell = 21,
    /// The value is no letter of the alphabet.
    #[error("no letter")]
    NoLetter = 22,
}

impl NoteRefusal {
    /// The refusal's number.
    pub fn number(self) -> u32
        ensures { result ≡ note_number self }
    {
        self as u32
    }
}
