// The cells that are found on a tag.
ghost use Rattle.std.specs.Prelude.{◌≡◌, ◌≤◌, length};
ghost use Rattle.codes.specs.Cards.{card_code};
ghost use Rattle.codes.specs.Cells.{blanks};

use codes::{Card, Cell};
use fields::LetteredField;

// Cells under a card, of which so few are blank that a codeword may be near.
#[derive(Drop)]
pub(crate) struct FoundCells<'a, F: LetteredField> {
    pub card: &'a Card<F>,
    pub cells: &'a [Cell],
    // How many cells are blank.
    pub blank: usize,
    ghost long: { length cells.now ≡ length (card_code card.now).locators },
    ghost counted: { blank ≡ blanks cells.now },
    ghost few: { blank ≤ (card_code card.now).rows },
}
