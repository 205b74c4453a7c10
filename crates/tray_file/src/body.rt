// The bodies of a tray file's records: cards, cells and notes as numbers and bytes.
mod card_body;
mod card_head;
mod card_shape;
mod cells_body;
mod cells_refusal;
mod limits;
mod note_body;
mod number_list;
mod shape_of_card;
mod whole_lists;

pub use card_body::read_card;
pub use cells_body::read_cells;
pub(crate) use cells_body::{CellList, list_cells};
pub use cells_refusal::CellsRefusal;
pub use limits::LONGEST_NOTE;
pub(crate) use note_body::is_plain;
