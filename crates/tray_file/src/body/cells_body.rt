// Reads cells from a record's body: 0 for a blank, and letter + 1 otherwise.
ghost use Rattle.std.specs.Prelude.{◌≡◌, ◌≤◌, length, Decides};
ghost use Rattle.algebra.specs.Limits.{largest_cells};
ghost use Rattle.codes.specs.Cards.{card_code};
ghost use Rattle.tray_file.specs.body.CellBodies.{UpTo, cell_of_number, cells_of, CellNumbersRead, CellsListed, CellsReadInto};
ghost use Rattle.tray_file.specs.body.OneReading.{CellsReadBack, OneCellsAnswer};

use crate::body::card_shape::CardShape;
use crate::body::cells_refusal::CellsRefusal;
use crate::body::number_list::ListAt;
use crate::body::shape_of_card::{shape_of, shape_of_any};
use crate::fault::{BodyFault, TagCause};
use algebra::LARGEST_CELLS;
use arrayvec::ArrayVec;
use codes::{AnyCard, Card, Cell};
use fields::LetteredField;
use shortlist::ShortList;

// As many cells as a card may have, in an array of their own.
pub(crate) type CellList = ArrayVec<Cell, LARGEST_CELLS>;

// Puts the cells of a body under its card into the list, in place of those before. A body that is
// refused leaves the list as it was.
pub(crate) fn list_cells(card: &AnyCard, body: &[u8], cells: &mut CellList) -> Result<(), BodyFault>
    ensures { CellsListed card.now body.now cells.old.items cells.new.items result }
{
    // A `?` would move the numbers once more.
    match cell_numbers(shape_of_any(card), body) {
        Ok(numbers) => {
            set_cells(numbers.as_slice(), cells);
            Ok(())
        }
        Err(fault) => Err(fault),
    }
}

/// Writes the cells of a body under its card into a buffer of n cells. Refused with 25 where the
/// buffer has another length, then 32 or 35, from left to right, where the body is not n numbers
/// and nothing more, then 22 where one is no letter and no blank. The buffer is then as it was.
pub fn read_cells<F: LetteredField>(
    card: &Card<F>,
    body: &[u8],
    cells: &mut [Cell],
) -> Result<(), CellsRefusal>
    ensures read { CellsReadInto (card_code card.now) body.now cells.old cells.new result }
    ensures back { CellsReadBack }
    ensures one { OneCellsAnswer }
{
    let shape = shape_of(card);
    if cells.len() != shape.cells {
        return Err(CellsRefusal::WrongLength);
    }
    let numbers = cell_numbers(shape, body)?;
    write_cells(numbers.as_slice(), cells);
    Ok(())
}

// The numbers of the cells. Whether they stand for letters is asked once they are all there.
fn cell_numbers(shape: CardShape, body: &[u8]) -> Result<ShortList<LARGEST_CELLS>, BodyFault>
    ensures { CellNumbersRead shape.cells shape.letters body.now result }
{
    let list = ListAt {
        body,
        start: 0,
        count: shape.cells,
    };
    let numbers = list.read_whole()?;
    if !up_to(numbers.as_slice(), shape.letters) {
        return Err(BodyFault::Tag(TagCause::NoLetter));
    }
    Ok(numbers)
}

fn up_to(numbers: &[u32], letters: u32) -> bool
    ensures { Decides result (UpTo letters numbers.now) }
{
    numbers.iter().all(|number| *number <= letters)
}

fn write_cells(numbers: &[u32], cells: &mut [Cell])
    requires { length cells.old ≡ length numbers.now }
    ensures { cells.new ≡ cells_of numbers.now }
{
    // A proof knows nothing of what a zip of `iter_mut` writes, so the number is found by its
    // place.
    for (j, cell) in cells.iter_mut().enumerate() {
        *cell = cell_of(numbers[j]);
    }
}

// Puts the cells of the numbers into the list, in place of those before. A list that is as long is
// written over, which takes less time than to push each cell.
fn set_cells(numbers: &[u32], cells: &mut CellList)
    requires { length numbers.now ≤ largest_cells }
    ensures { cells.new.items ≡ cells_of numbers.now }
{
    if cells.len() == numbers.len() {
        write_cells(numbers, cells.as_mut_slice());
        return;
    }
    cells.clear();
    for number in numbers {
        cells.push(cell_of(*number));
    }
}

fn cell_of(number: u32) -> Cell
    ensures { result ≡ cell_of_number number }
{
    Cell {
        letter: number.checked_sub(1),
    }
}
