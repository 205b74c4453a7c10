// The marks that stand for letters and blanks.
ghost use Rattle.std.specs.Prelude.{◌≡◌};
ghost use Rattle.tags.specs.marks.MarksRead.{MarkRead, mark_number};

use codes::Cell;
use thiserror::Error;

/// Why a mark is not read.
#[derive(Clone, Copy, PartialEq, Eq, Debug, Error)]
pub enum MarkRefusal {
    /// The mark is no letter and no '?'.
    #[error("bad mark")]
    BadMark = 28,
}

impl MarkRefusal {
    /// The refusal's number.
    pub fn number(self) -> u32
        ensures { result ≡ mark_number self }
    {
        self as u32
    }
}

/// The cell that a mark stands for: '0' to '9' are the letters 0 to 9, 'A' to 'Z' are 10 to 35, '-'
/// is 36, and '?' is a blank. Refused with 28 where it is any other mark.
pub fn read_mark(mark: char) -> Result<Cell, MarkRefusal>
    ensures { MarkRead mark result }
{
    match mark {
        '0'..='9' => Ok(Cell::noted(mark as u32 - '0' as u32)),
        'A'..='Z' => Ok(Cell::noted(mark as u32 - 'A' as u32 + 10)),
        '-' => Ok(Cell::noted(36)),
        '?' => Ok(Cell::blank()),
        _ => Err(MarkRefusal::BadMark),
    }
}
