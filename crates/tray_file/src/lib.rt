// The tray file: numbers, faults, the bodies of records, a reader of records and their writers.
#![tactic(auto)]

mod body;
mod fault;
mod number;
mod reader;
mod writer;

pub use body::{CellsRefusal, LONGEST_NOTE, read_card, read_cells};
pub use fault::{BodyFault, Fault, FieldFault, FileCause, Layer, TagCause};
pub use number::number_examples;
pub use reader::{Kind, LONGEST_FILE, NoSuchKind, Record, TrayReader, check_file};
pub use writer::{WriteRefusal, write_card, write_cells, write_note};
