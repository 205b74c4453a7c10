// Reading: the only codeword near the cells.
mod candidate;
mod decode;
mod found;
mod locator;
mod read_answer;
mod roots;

ghost use Rattle.std.specs.Prelude.{◌≡◌, length};
ghost use Rattle.codes.specs.Cards.{card_arithmetic, card_code};
ghost use Rattle.codes.specs.Standings.{Lettered};
ghost use Rattle.decoding.specs.reading.Reading.{Reading, OneReading};

use crate::reading::found::FoundCells;
use algebra::LARGEST_CELLS;
use codes::{Card, Cell, count_blanks};
use fields::LetteredField;
pub use read_answer::{Counts, ReadRefusal};

/// Writes the near codeword into `word`, a buffer of n numbers, and answers how many cells are
/// wrong and how many are blank. Refused with 25 where the buffer has another length, then 23 where
/// more cells are blank than the card has rows, then 24 where no codeword is near. The buffer is
/// then as it was. What is asked of the cells, one for each locator and every noted letter in the
/// alphabet, is what a tag keeps.
pub fn read_cells<F: LetteredField>(
    card: &Card<F>,
    cells: &[Cell],
    word: &mut [u32],
) -> Result<Counts, ReadRefusal>
    requires long { length cells.now ≡ length (card_code card.now).locators }
    requires lettered { Lettered (card_code card.now).letters cells.now }
    ensures outcome { Reading (card_arithmetic card.now) (card_code card.now)
        cells.now word.old word.new result }
    ensures one { OneReading }
{
    if word.len() != card.cells() {
        return Err(ReadRefusal::WrongLength);
    }
    let blank = count_blanks(cells);
    if blank > card.code().rows {
        return Err(ReadRefusal::TooBlank);
    }
    let found = FoundCells { card, cells, blank };
    let mut candidate = [0; LARGEST_CELLS];
    let candidate = &mut candidate[..word.len()];
    let Some(wrong) = found.decode(candidate) else {
        return Err(ReadRefusal::Lost);
    };
    word.copy_from_slice(candidate);
    Ok(Counts { wrong, blank })
}
