// Reads the word that cells mean under their card.
ghost use Rattle.codes.specs.AnyCards.{any_arithmetic, any_code};
ghost use Rattle.codes.specs.Cards.{card_arithmetic, card_code};
ghost use Rattle.tray_report.specs.WordReading.{CellsFit, WordFound};

use crate::word_read::WordRead;
use algebra::LARGEST_CELLS;
use codes::{AnyCard, Card, Cell};
use decoding::ReadRefusal;
use fields::LetteredField;
use shortlist::ShortList;

// The word near the cells, with its two counts, under a card over a field of any kind.
pub(crate) fn read_word(card: &AnyCard, cells: &[Cell]) -> Result<WordRead, ReadRefusal>
    requires { CellsFit (any_code card.now) cells.now }
    ensures { WordFound (any_arithmetic card.now) (any_code card.now) cells.now result }
{
    match card {
        AnyCard::Prime(card) => word_under(card, cells),
        AnyCard::Binary(card) => word_under(card, cells),
    }
}

fn word_under<F: LetteredField>(card: &Card<F>, cells: &[Cell]) -> Result<WordRead, ReadRefusal>
    requires { CellsFit (card_code card.now) cells.now }
    ensures { WordFound (card_arithmetic card.now) (card_code card.now) cells.now result }
{
    let mut letters = [0; LARGEST_CELLS];
    let letters = &mut letters[..card.cells()];
    let counts = decoding::read_cells(card, cells, letters)?;
    Ok(WordRead {
        counts,
        letters: ShortList::from_slice(letters),
    })
}
