// The kinds of records.
ghost use Rattle.std.specs.Prelude.{◌≡◌};
ghost use Rattle.tray_file.specs.reader.RecordKinds.{kind_number, KindNamed};

use thiserror::Error;

/// The kinds of records. Each kind has the number that names it in a file.
#[derive(Clone, Copy, PartialEq, Eq, Debug)]
pub enum Kind {
    /// A card.
    Card = 1,
    /// The cells of a tag.
    Cells = 2,
    /// A note.
    Note = 3,
}

/// No kind has the number. Where a record has it, the fault is 33.
#[derive(Clone, Copy, PartialEq, Eq, Debug, Error)]
#[error("strange record")]
pub struct NoSuchKind;

impl Kind {
    /// The kind's number.
    pub fn number(self) -> u32
        ensures { result ≡ kind_number self }
    {
        self as u32
    }
}

impl TryFrom<u32> for Kind {
    type Error = NoSuchKind;

    ghost try_from_gives = { KindNamed };

    fn try_from(number: u32) -> Result<Kind, NoSuchKind> {
        match number {
            1 => Ok(Kind::Card),
            2 => Ok(Kind::Cells),
            3 => Ok(Kind::Note),
            _ => Err(NoSuchKind),
        }
    }
}
