// The house cards: the codes that every store knows by number, and their checked cards.
mod cards;
mod rows;

pub use cards::{engraved_card, house_card, inked_card, punched_card};
pub use rows::{
    ENGRAVED, HouseRefusal, HouseRow, INKED, LocatorRule, MultiplierRule, PUNCHED, house_row,
};
