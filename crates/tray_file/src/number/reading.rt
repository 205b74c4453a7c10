// Reads the number that begins at a place.
ghost use Rattle.std.specs.Prelude.{drop};
ghost use Rattle.tray_file.specs.number.BadNumbers.{NumberRules};
ghost use Rattle.tray_file.specs.number.NumberReading.{NumberAnswered};

use crate::number::cause::NumberCause;
use crate::number::limits::LARGEST_NUMBER;

// A byte of this value or more says that another byte follows.
const GOES_ON: u32 = 128;

// A number, and the place after its last byte.
#[derive(Clone, Copy, PartialEq, Eq, Debug)]
pub(crate) struct NumberRead {
    pub value: u32,
    pub end: usize,
}

// The number whose first byte is at `start`. A slice and a place in it, and no cut slice: a fault
// names the place.
pub(crate) fn read_number(bytes: &[u8], start: usize) -> Result<NumberRead, NumberCause>
    ensures read { NumberAnswered (drop start bytes.now) start result }
    ensures rules { NumberRules }
{
    if start >= bytes.len() {
        return Err(NumberCause::CutOff);
    }
    let first = bytes[start] as u32;
    if first < GOES_ON {
        return Ok(NumberRead {
            value: first,
            end: start + 1,
        });
    }
    if start + 1 >= bytes.len() {
        return Err(NumberCause::CutOff);
    }
    let second = bytes[start + 1] as u32;
    let ends_in_zero = second == 0;
    if ends_in_zero {
        return Err(NumberCause::BadNumber);
    }
    if second < GOES_ON {
        return Ok(NumberRead {
            value: first - GOES_ON + GOES_ON * second,
            end: start + 2,
        });
    }
    if start + 2 >= bytes.len() {
        return Err(NumberCause::CutOff);
    }
    let third = bytes[start + 2] as u32;
    let third_is_zero = third == 0;
    if third_is_zero {
        return Err(NumberCause::BadNumber);
    }
    // A third byte that goes on makes the value too large.
    let value = first - GOES_ON + GOES_ON * (second - GOES_ON + GOES_ON * third);
    if value > LARGEST_NUMBER {
        return Err(NumberCause::BadNumber);
    }
    Ok(NumberRead {
        value,
        end: start + 3,
    })
}
