// Tags: marks, the cells of a tag, reading, and runs of calls.
#![tactic(auto)]

mod marks;
mod runs;
mod tag;

pub use marks::{LineRefusal, MarkRefusal, count_marks, read_line, read_mark};
pub use runs::{Call, Ending, Event, Played, Script, UNPLAYED, Worker, play_script, work_tag};
pub use tag::{NoteRefusal, Tag, WipeRefusal};
