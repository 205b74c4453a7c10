// Why the file itself is refused.
ghost use Rattle.std.specs.Prelude.{◌≡◌};
ghost use Rattle.tray_file.specs.fault.Layers.{file_number};

use thiserror::Error;

/// Why the file itself is refused.
#[derive(Clone, Copy, PartialEq, Eq, Debug, Error)]
pub enum FileCause {
    /// The file ends inside a record.
    #[error("cut off")]
    CutOff = 31,
    /// A number goes on after its third byte, or the last of its several groups is zero, or it is
    /// above 65,535.
    #[error("bad number")]
    BadNumber = 32,
    /// A record's kind is not 1, 2 or 3.
    #[error("strange record")]
    StrangeRecord = 33,
    /// Cells or a note stand before the first card, or a note after a note.
    #[error("out of turn")]
    OutOfTurn = 34,
    /// A body is too short or too long.
    #[error("bad body")]
    BadBody = 35,
    /// A note has more than 200 bytes, or a byte outside 32 to 126.
    #[error("bad note")]
    BadNote = 36,
    /// The file has more than 60,000 bytes.
    #[error("long file")]
    LongFile = 37,
}

impl FileCause {
    /// The cause's number.
    pub fn number(self) -> u32
        ensures { result ≡ file_number self }
    {
        self as u32
    }
}
