// Encoding: the data letters, and the check letters that make them a codeword.
mod encode_refusal;
mod examples;

ghost use Rattle.std.specs.Prelude.{◌≡◌, ◌+◌, ◌≤◌, ◌++◌, length, replicate};
ghost use Rattle.algebra.specs.Limits.{largest_cells};
ghost use Rattle.codes.specs.Cards.{card_code};
ghost use Rattle.codes.specs.Cells.{blank_cell, noted};
ghost use Rattle.decoding.specs.encoding.Encodings.{encoding, EncodeLengths, Encoded};

use crate::filling::write_letters;
use algebra::{LARGEST_CELLS, LARGEST_ROWS};
use arrayvec::ArrayVec;
use codes::{Card, Cell};
pub use encode_refusal::EncodeRefusal;
pub use examples::code_examples;
use fields::{Field, LetteredField, all_below};

/// Writes into `word`, a buffer of n numbers, the codeword that begins with `data`, which are n − r
/// letters. Refused with 26 where the alphabet size is below the field's size, then 25 where the
/// data or the buffer have another length, then 22 where a number of the data is no letter. The
/// buffer is then as it was.
pub fn encode<F: LetteredField>(
    card: &Card<F>,
    data: &[u32],
    word: &mut [u32],
) -> Result<(), EncodeRefusal>
    ensures { Encoded (F.Field.meaning card.now.field) (card_code card.now)
        «data».now word.old word.new result }
{
    let code = card.code();
    if code.letters < card.field().size() {
        return Err(EncodeRefusal::PartAlphabet);
    }
    let n = card.cells();
    if data.len() != n - code.rows || word.len() != n {
        return Err(EncodeRefusal::WrongLength);
    }
    if !all_below(data, code.letters) {
        return Err(EncodeRefusal::NoLetter);
    }
    write_codeword(card, data, word);
    Ok(())
}

// The same, where no refusal is due.
fn write_codeword<F: LetteredField>(card: &Card<F>, data: &[u32], word: &mut [u32])
    requires { EncodeLengths (card_code card.now) «data».now word.old }
    ensures { word.new ≡ encoding (F.Field.meaning card.now.field) (card_code card.now) «data».now }
{
    let over = card.over();
    let cells = data_cells(data, over.code.rows);
    let cells = cells.as_slice();
    let mut row_sums = [0; LARGEST_ROWS];
    let row_sums = &mut row_sums[..over.code.rows];
    // The lengths are the card's, so the sums are not refused.
    over.sums(cells, row_sums).unwrap();
    write_letters(over, cells, row_sums, word);
}

// The letters in the first cells, and a blank for each row after them.
fn data_cells(letters: &[u32], rows: usize) -> ArrayVec<Cell, LARGEST_CELLS>
    requires { length letters.now + rows ≤ largest_cells }
    ensures { result.items ≡ noted letters.now ++ replicate rows blank_cell }
{
    let mut cells = ArrayVec::new();
    for letter in letters {
        cells.push(Cell::noted(*letter));
    }
    for _ in 0..rows {
        cells.push(Cell::blank());
    }
    cells
}
