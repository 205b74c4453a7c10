// Decoding: the near codeword, by syndromes, the error locator and filling.
ghost use Rattle.std.specs.Prelude.{◌≡◌, length};
ghost use Rattle.codes.specs.Cards.{card_arithmetic, card_code};
ghost use Rattle.codes.specs.Standings.{Lettered};
ghost use Rattle.decoding.specs.reading.Decoding.{Decoded};

use crate::reading::candidate::fill_candidate;
use crate::reading::found::FoundCells;
use crate::reading::roots::erase_roots;
use algebra::{COEFFICIENTS, LARGEST_CELLS, LARGEST_ROWS};
use codes::Cell;
use fields::LetteredField;

impl<'a, F: LetteredField> FoundCells<'a, F> {
    // Writes the near codeword into `word` and answers how many cells are wrong, or nothing where
    // no codeword is near.
    pub fn decode(&self, word: &mut [u32]) -> Option<usize>
        requires lettered { Lettered (card_code self.now.card.now).letters self.now.cells.now }
        requires room { length word.old ≡ length (card_code self.now.card.now).locators }
        ensures { Decoded (card_arithmetic self.now.card.now) (card_code self.now.card.now)
            self.now.cells.now word.new result }
    {
        let over = self.card.over();
        let mut row_sums = [0; LARGEST_ROWS];
        let row_sums = &mut row_sums[..over.code.rows];
        // The lengths are the card's, so the sums are not refused.
        over.sums(self.cells, row_sums).unwrap();
        let mut locator = [0; COEFFICIENTS];
        let degree = self.error_locator(row_sums, &mut locator);
        if 2 * degree > over.code.rows - self.blank {
            return None;
        }
        let mut left = [Cell::blank(); LARGEST_CELLS];
        let left = &mut left[..self.cells.len()];
        left.copy_from_slice(self.cells);
        // From here on only the erased cells are gone through row by row: an erased letter's part
        // leaves the sums, a filled one's comes in.
        erase_roots(self.card, &locator[..degree + 1], left, row_sums);
        fill_candidate(self.card, left, row_sums, word);
        self.accept(word, row_sums)
    }
}
