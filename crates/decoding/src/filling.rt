// Filling erased cells.
mod erasures;
mod fill_refusal;
mod polynomial;

ghost use Rattle.std.specs.Prelude.{◌≡◌, ◌≤◌};
ghost use Rattle.algebra.specs.Limits.{largest_rows};
ghost use Rattle.codes.specs.Code.{code_of};
ghost use Rattle.codes.specs.Cards.{card_code};
ghost use Rattle.codes.specs.Cells.{blanks};
ghost use Rattle.decoding.specs.filling.Fillings.{filled, FillLengths, Filling, FillingLaws};

use codes::{Card, Cell, CodeOver, count_blanks};
use erasures::Erasures;
pub(crate) use erasures::blank_annihilator;
use fields::{Field, LetteredField};
pub use fill_refusal::FillRefusal;
pub(crate) use polynomial::Polynomial;

/// Writes into `word`, a buffer of n numbers, the noted letters and, at the blanks, the letters
/// that `sums` give: the r sums over the noted cells. A codeword that agrees with the noted cells
/// has these letters. Refused with 25 where the cells or the buffer are not as many as the card's
/// cells, or there is not a sum for each row, then 23 where more cells are blank than the card has
/// rows. The buffer is then as it was.
pub fn fill<F: LetteredField>(
    card: &Card<F>,
    cells: &[Cell],
    sums: &[u32],
    word: &mut [u32],
) -> Result<(), FillRefusal>
    ensures outcome { Filling (F.Field.meaning card.now.field) (card_code card.now)
        cells.now sums.now word.old word.new result }
    ensures laws { FillingLaws (F.Field.meaning card.now.field) (card_code card.now) }
{
    let n = card.cells();
    let rows = card.code().rows;
    if cells.len() != n || sums.len() != rows || word.len() != n {
        return Err(FillRefusal::WrongLength);
    }
    if count_blanks(cells) > rows {
        return Err(FillRefusal::TooBlank);
    }
    write_letters(card.over(), cells, sums, word);
    Ok(())
}

// The same, where no refusal is due.
pub(crate) fn write_letters<F: Field>(
    over: CodeOver<'_, F>,
    cells: &[Cell],
    sums: &[u32],
    word: &mut [u32],
)
    requires lengths { FillLengths (code_of over.code) cells.now sums.now word.old }
    requires few { blanks cells.now ≤ (code_of over.code).rows }
    requires largest { blanks cells.now ≤ largest_rows }
    ensures { word.new
        ≡ filled (F.Field.meaning over.entry.field.now) (code_of over.entry.code)
        cells.now sums.now }
{
    let code = over.code;
    let erasures = Erasures {
        field: over.field,
        annihilator: &blank_annihilator(over.field, code.locators, cells),
        sums,
    };
    // A zip on `iter_mut` tells a proof nothing of what is written, so the other lists are read at
    // the index.
    for (j, letter) in word.iter_mut().enumerate() {
        *letter = erasures.letter_of(cells[j], code.locators[j], code.multipliers[j]);
    }
}
