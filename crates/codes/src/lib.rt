// Codes over a field: cells, sums, whether a line of cells is a codeword, cards, and the house
// cards.
#![tactic(auto)]

mod any_card;
mod card;
mod card_cause;
mod cell;
mod cell_row;
mod code;
mod house;
mod over;
mod standing;
mod syndromes;
mod word;

pub use any_card::AnyCard;
pub use card::{Card, sizes_fit};
pub use card_cause::CardCause;
pub use cell::Cell;
pub use cell_row::CellRow;
pub use code::CodeRef;
pub use house::{
    ENGRAVED, HouseRefusal, HouseRow, INKED, LocatorRule, MultiplierRule, PUNCHED, engraved_card,
    house_card, house_row, inked_card, punched_card,
};
pub use over::CodeOver;
pub use standing::{Standing, all_zero, count_blanks, lettered};
pub use syndromes::{SumsRefusal, add_powers};
pub use word::Word;
