// The five numbers that a card's body begins with.
ghost use Rattle.std.specs.Prelude.{Decides};
ghost use Rattle.tray_file.specs.body.CardHeads.{HeadRead, HeadShape};

use crate::body::number_list::ListAt;
use crate::fault::BodyFault;
use codes::sizes_fit;

#[derive(Clone, Copy)]
pub(crate) struct CardHead {
    // The number of the field's kind, which may be no kind's until that is asked, and what the
    // field is made from.
    pub kind: u32,
    pub origin: u32,
    pub letters: u32,
    pub cells: usize,
    pub rows: usize,
}

// A head, and the place after it.
#[derive(Clone, Copy)]
pub(crate) struct ReadHead {
    pub head: CardHead,
    pub end: usize,
}

// How many numbers a head has.
const HEAD_NUMBERS: usize = 5;

pub(crate) fn read_head(body: &[u8]) -> Result<ReadHead, BodyFault>
    ensures { HeadRead body.now result }
{
    let numbers = ListAt {
        body,
        start: 0,
        count: HEAD_NUMBERS,
    };
    let list = numbers.read()?;
    let values = list.values.as_slice();
    Ok(ReadHead {
        head: CardHead {
            kind: values[0],
            origin: values[1],
            letters: values[2],
            cells: values[3] as usize,
            rows: values[4] as usize,
        },
        end: list.end,
    })
}

impl CardHead {
    pub(crate) fn has_shape(self) -> bool
        ensures { Decides result (HeadShape self) }
    {
        sizes_fit(self.cells, self.rows)
    }
}
