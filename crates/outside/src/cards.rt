// The cards of the field of four elements: two rows, the locators 0 to 3 and multipliers 1.
ghost use Rattle.outside.specs.FourCards.{FourCardMade};

use crate::four_field::FourField;
use kimzhadyr::card::{Card, CardCause, CodeRef};

pub const CELLS: usize = 4;

const ROWS: usize = 2;

pub const DATA: usize = CELLS - ROWS;

const LOCATORS: [u32; CELLS] = [0, 1, 2, 3];

const MULTIPLIERS: [u32; CELLS] = [1, 1, 1, 1];

// The card with so many letters: two or four.
pub fn four_card(letters: u32) -> Result<Card<FourField>, CardCause>
    ensures { FourCardMade letters result }
{
    Card::check(
        FourField,
        CodeRef {
            letters,
            rows: ROWS,
            locators: &LOCATORS,
            multipliers: &MULTIPLIERS,
        },
    )
}
