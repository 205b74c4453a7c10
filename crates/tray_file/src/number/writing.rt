// Writes a number at a place.
ghost use Rattle.std.specs.Prelude.{◌≡◌, length};
ghost use Rattle.tray_file.specs.number.Numbers.{number_bytes};
ghost use Rattle.tray_file.specs.number.NumberWriting.{write_cause_number, NumberWritten, ReadsBack, WrittenWorth};

use crate::number::limits::LARGEST_NUMBER;
use thiserror::Error;

// The numbers below it are written in one byte; a larger one in groups that it divides by.
const GROUP: u32 = 128;

// Why a number can't be written.
#[derive(Clone, Copy, PartialEq, Eq, Debug, Error)]
pub(crate) enum WriteCause {
    #[error("bad number")]
    BadNumber = 32,
    #[error("too small")]
    TooSmall = 38,
}

impl WriteCause {
    pub fn number(self) -> u32
        ensures { result ≡ write_cause_number self }
    {
        self as u32
    }
}

// How many bytes a number is written in.
pub(crate) fn number_length(value: u32) -> usize
    ensures { result ≡ length (number_bytes value) }
{
    if value < GROUP {
        1
    } else if value < GROUP * GROUP {
        2
    } else {
        3
    }
}

// Writes the number with its first byte at `start`, and answers the place after it.
pub(crate) fn write_number(value: u32, buffer: &mut [u8], start: usize) -> Result<usize, WriteCause>
    ensures written { NumberWritten value start buffer.old buffer.new result }
    ensures back { ReadsBack }
    ensures worth { WrittenWorth }
{
    if value > LARGEST_NUMBER {
        return Err(WriteCause::BadNumber);
    }
    let size = number_length(value);
    if start > buffer.len() || buffer.len() - start < size {
        return Err(WriteCause::TooSmall);
    }
    if size == 1 {
        buffer[start] = value as u8;
    } else if size == 2 {
        buffer[start] = (GROUP + value % GROUP) as u8;
        buffer[start + 1] = (value / GROUP) as u8;
    } else {
        buffer[start] = (GROUP + value % GROUP) as u8;
        buffer[start + 1] = (GROUP + value / GROUP % GROUP) as u8;
        buffer[start + 2] = (value / GROUP / GROUP) as u8;
    }
    Ok(start + size)
}
