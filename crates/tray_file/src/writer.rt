// Writers of a tray file's records: each puts one record at the front of a buffer.
mod card_writing;
mod cells_writing;
mod note_writing;
mod page;
mod record_writing;
mod write_refusal;

pub use card_writing::write_card;
pub use cells_writing::write_cells;
pub use note_writing::write_note;
pub use write_refusal::WriteRefusal;
