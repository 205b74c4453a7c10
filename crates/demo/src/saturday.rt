// Saturday: the tag's card and its cells go into a tray file.
ghost use Rattle.demo.specs.Filed.{FiledTag};

use crate::inked::CELLS;
use arrayvec::ArrayVec;
use codes::{AnyCard, Cell, inked_card};
use tray_file::{WriteRefusal, write_card, write_cells};

// The card's record has 47 bytes and that of the cells 22; the proof counts up to 66 there, three
// for each number.
const ROOM: usize = 128;

// The bytes of the inked card's record and of these cells.
pub fn file_tag(cells: &[Cell; CELLS]) -> Result<ArrayVec<u8, ROOM>, WriteRefusal>
    ensures { FiledTag cells.now result }
{
    let card = AnyCard::Prime(inked_card());
    let mut file = [0; ROOM];
    let first = write_card(&card, &mut file)?;
    let second = write_cells(&inked_card(), cells, &mut file[first..ROOM])?;
    // Both are in the room, so they fit.
    Ok(ArrayVec::try_from(&file[0..first + second]).unwrap())
}
