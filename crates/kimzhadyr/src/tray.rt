// Tray files: a reader of their records, the bodies, the writers, and the lines of a file.
pub use shortlist::ShortList;
pub use tray_file::{
    BodyFault, CellsRefusal, Fault, FieldFault, FileCause, Kind, LONGEST_FILE, LONGEST_NOTE, Layer,
    NoSuchKind, Record, TagCause, TrayReader, WriteRefusal, check_file, read_card, read_cells,
    write_card, write_cells, write_note,
};
pub use tray_report::{EndLine, FaultLine, FileLines, LostLine, Step, WordRead, write_lines};
