// Writes cells: 0 for a blank, and letter + 1 otherwise.
ghost use Rattle.std.specs.Prelude.{◌≡◌, ◌≤◌, map, length, OnOk};
ghost use Rattle.algebra.specs.Limits.{largest_cells, largest_size};
ghost use Rattle.codes.specs.Cards.{card_code};
ghost use Rattle.codes.specs.Standings.{Lettered};
ghost use Rattle.tray_file.specs.body.CellBodies.{cell_number, letter_number};
ghost use Rattle.tray_file.specs.writer.ReadingBack.{CellsComeBack};
ghost use Rattle.tray_file.specs.writer.Writers.{LetterFits, CellsWritten};

use crate::reader::Kind;
use crate::writer::record_writing::{BodyNumbers, write_numbers};
use crate::writer::write_refusal::WriteRefusal;
use algebra::LARGEST_CELLS;
use arrayvec::ArrayVec;
use codes::{Card, Cell, lettered};
use fields::LetteredField;

/// Puts the record of n cells under their card at the front of a buffer, leaves the rest of the
/// buffer, and answers how many bytes the record has. Refused with 25 where the cells are not n,
/// then 22 where a noted one holds no letter of the alphabet, then 38 where the buffer is too
/// small. It is then as it was. Whether cells are in turn is not asked.
pub fn write_cells<F: LetteredField>(
    card: &Card<F>,
    cells: &[Cell],
    buffer: &mut [u8],
) -> Result<usize, WriteRefusal>
    ensures written { CellsWritten (card_code card.now) cells.now buffer.old buffer.new result }
    ensures back { OnOk result (CellsComeBack (card_code card.now) cells.now) }
{
    let letters = card.code().letters;
    if cells.len() != card.cells() {
        return Err(WriteRefusal::WrongLength);
    }
    if !lettered(cells, letters) {
        return Err(WriteRefusal::NoLetter);
    }
    let numbers = cell_numbers(cells, letters);
    let body = BodyNumbers {
        head: numbers.as_slice(),
        first: &[],
        second: &[],
    };
    write_numbers(Kind::Cells, body, buffer)
}

fn cell_numbers(cells: &[Cell], letters: u32) -> ArrayVec<u32, LARGEST_CELLS>
    requires few { length cells.now ≤ largest_cells }
    requires small { letters ≤ largest_size }
    requires lettered { Lettered letters cells.now }
    ensures { result.items ≡ map cell_number cells.now }
{
    let mut numbers = ArrayVec::new();
    for cell in cells {
        numbers.push(number_of(cell.letter));
    }
    numbers
}

fn number_of(letter: Option<u32>) -> u32
    requires { LetterFits letter }
    ensures { result ≡ letter_number letter }
{
    letter.map_or(0, |letter| letter + 1)
}
