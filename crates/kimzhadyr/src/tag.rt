// Tags: marks, the calls of a tag, and runs of calls.
pub use decoding::{Counts, ReadRefusal};
pub use tags::{
    Call, Ending, Event, LineRefusal, MarkRefusal, NoteRefusal, Played, Script, Tag, UNPLAYED,
    WipeRefusal, Worker, count_marks, play_script, read_line, read_mark, work_tag,
};
