// Whether the filled word is a codeword near the cells.
ghost use Rattle.std.specs.Prelude.{◌≡◌, ◌≤◌, length};
ghost use Rattle.codes.specs.Cards.{card_arithmetic, card_code};
ghost use Rattle.codes.specs.Cells.{blanks, noted};
ghost use Rattle.codes.specs.Sums.{syndromes};
ghost use Rattle.decoding.specs.filling.Fillings.{Agrees, filled};
ghost use Rattle.decoding.specs.reading.Reading.{differs, wrong};
ghost use Rattle.decoding.specs.reading.Decoding.{Accepted};

use crate::filling::write_letters;
use crate::reading::found::FoundCells;
use codes::{Card, Cell, add_powers, all_zero};
use fields::{Field, LetteredField, all_below};

// Writes the filled cells into `word`, and puts the parts of the letters at the blank cells into
// the sums, which then are those of the word.
pub(crate) fn fill_candidate<F: LetteredField>(
    card: &Card<F>,
    cells: &[Cell],
    sums: &mut [u32],
    word: &mut [u32],
)
    requires long { length cells.now ≡ length (card_code card.now).locators }
    requires few { blanks cells.now ≤ (card_code card.now).rows }
    requires room { length word.old ≡ length (card_code card.now).locators }
    requires summed { sums.old
        ≡ syndromes (card_arithmetic card.now) (card_code card.now) cells.now }
    ensures word { word.new
        ≡ filled (F.Field.meaning card.now.field) (card_code card.now) cells.now sums.old }
    ensures sums { sums.new
        ≡ syndromes (card_arithmetic card.now) (card_code card.now) (noted word.new) }
{
    write_letters(card.over(), cells, sums, word);
    add_filled(card, cells, word, sums);
}

// The sums of the word, from those of the noted cells.
fn add_filled<F: LetteredField>(card: &Card<F>, cells: &[Cell], word: &[u32], sums: &mut [u32])
    requires long { length cells.now ≡ length (card_code card.now).locators }
    requires as_long { length word.now ≡ length cells.now }
    requires agrees { Agrees cells.now word.now }
    requires summed { sums.old
        ≡ syndromes (card_arithmetic card.now) (card_code card.now) cells.now }
    ensures { sums.new
        ≡ syndromes (card_arithmetic card.now) (card_code card.now) (noted word.now) }
{
    let field = card.field();
    let code = card.code();
    let places = code.locators.iter().zip(code.multipliers);
    for ((cell, letter), (locator, multiplier)) in cells.iter().zip(word).zip(places) {
        if cell.letter.is_none() {
            let weighted = field.mul(*letter, *multiplier);
            add_powers(field, weighted, *locator, sums);
        }
    }
}

impl<'a, F: LetteredField> FoundCells<'a, F> {
    // How many cells are wrong, if the word passes. `sums` has the sums of the word.
    pub fn accept(&self, word: &[u32], sums: &[u32]) -> Option<usize>
        requires { length word.now ≡ length self.now.cells.now }
        ensures { Accepted (card_code self.now.card.now)
            self.now.cells.now word.now sums.now result }
    {
        let code = self.card.code();
        if !all_below(word, code.letters) || !all_zero(sums) {
            return None;
        }
        let wrong = count_wrong(self.cells, word);
        if 2 * wrong > code.rows - self.blank {
            return None;
        }
        Some(wrong)
    }
}

// How many noted cells have another letter than the word.
fn count_wrong(cells: &[Cell], word: &[u32]) -> usize
    requires { length word.now ≡ length cells.now }
    ensures count { result ≡ wrong cells.now word.now }
    ensures most { result ≤ length cells.now }
{
    cells
        .iter()
        .zip(word)
        .filter(|(cell, letter)| is_wrong(**cell, **letter))
        .count()
}

fn is_wrong(cell: Cell, letter: u32) -> bool
    ensures { result ≡ differs cell.letter letter }
{
    cell.letter.is_some_and(|noted| noted != letter)
}
