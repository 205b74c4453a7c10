// Marks: which cells a line of them stands for.
mod line;
mod mark;

pub use line::{LineRefusal, count_marks, read_line};
pub use mark::{MarkRefusal, read_mark};
