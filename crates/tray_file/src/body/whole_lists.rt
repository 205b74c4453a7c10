// Lists of numbers that must end where the body ends.
ghost use Rattle.std.specs.Prelude.{drop};
ghost use Rattle.tray_file.specs.body.WholeLists.{WholeListRead, TwoListsRead};

use crate::body::number_list::ListAt;
use crate::fault::BodyFault;
use algebra::LARGEST_CELLS;
use shortlist::ShortList;

// A card's two lists.
#[derive(Clone, Copy)]
pub(crate) struct TwoLists {
    pub locators: ShortList<LARGEST_CELLS>,
    pub multipliers: ShortList<LARGEST_CELLS>,
}

impl<'a> ListAt<'a> {
    // The numbers, and nothing after them.
    pub fn read_whole(self) -> Result<ShortList<LARGEST_CELLS>, BodyFault>
        ensures { WholeListRead (drop self.entry.start self.entry.body.now) self.entry.start
            self.entry.count result }
    {
        let list = self.read()?;
        if list.end < self.body.len() {
            return Err(BodyFault::BadBody);
        }
        Ok(list.values)
    }

    // Two lists of so many numbers, and nothing after them.
    pub fn read_two(self) -> Result<TwoLists, BodyFault>
        ensures { TwoListsRead (drop self.entry.start self.entry.body.now) self.entry.start
            self.entry.count result }
    {
        let first = self.read()?;
        let second = ListAt {
            body: self.body,
            start: first.end,
            count: self.count,
        };
        Ok(TwoLists {
            locators: first.values,
            multipliers: second.read_whole()?,
        })
    }
}
