// What a tray file's cells records read as, line by line.
#![tactic(auto)]

mod file_lines;
mod line;
mod report;
mod word_read;
mod word_reading;

pub use file_lines::{FileLines, Step};
pub use line::{EndLine, FaultLine, LostLine};
pub use report::write_lines;
pub use word_read::WordRead;
