// Reads a list of numbers that stand one after another.
ghost use Rattle.std.specs.Prelude.{◌≤◌, drop};
ghost use Rattle.algebra.specs.Limits.{largest_cells};
ghost use Rattle.tray_file.specs.body.NumberLists.{NumberIn, ListRead};

use crate::fault::BodyFault;
use crate::number::{NumberCause, NumberRead, read_number};
use algebra::LARGEST_CELLS;
use shortlist::ShortList;

// Where a list is looked for: so many numbers, from a place of the body on.
#[derive(Clone, Copy)]
pub(crate) struct ListAt<'a> {
    pub body: &'a [u8],
    pub start: usize,
    pub count: usize,
    ghost few: { count ≤ largest_cells },
}

// The numbers, and the place after the last of them.
#[derive(Clone, Copy)]
pub(crate) struct NumberList {
    pub values: ShortList<LARGEST_CELLS>,
    pub end: usize,
}

impl<'a> ListAt<'a> {
    pub fn read(self) -> Result<NumberList, BodyFault>
        ensures { ListRead (drop self.entry.start self.entry.body.now) self.entry.start
            self.entry.count result }
    {
        let mut values = ShortList::zeros(self.count);
        let mut place = self.start;
        for j in 0..self.count {
            let read = number_in(self.body, place)?;
            values.set(j, read.value);
            place = read.end;
        }
        Ok(NumberList { values, end: place })
    }
}

// A number of a body. The body is too short where it ends inside the number.
fn number_in(body: &[u8], start: usize) -> Result<NumberRead, BodyFault>
    ensures { NumberIn (drop start body.now) start result }
{
    read_number(body, start).map_err(|cause| match cause {
        NumberCause::CutOff => BodyFault::BadBody,
        NumberCause::BadNumber => BodyFault::BadNumber(start),
    })
}
