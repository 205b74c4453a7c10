// Cards and the codes over them: cells, sums, checking, the house cards, filling and encoding.
pub use algebra::{LARGEST_CELLS, LARGEST_ROWS};
pub use codes::{
    AnyCard, Card, CardCause, Cell, CellRow, CodeOver, CodeRef, ENGRAVED, HouseRefusal, HouseRow,
    INKED, LocatorRule, MultiplierRule, PUNCHED, Standing, SumsRefusal, Word, count_blanks,
    engraved_card, house_card, house_row, inked_card, lettered, punched_card, sizes_fit,
};
pub use decoding::{EncodeRefusal, FillRefusal, encode, fill};
