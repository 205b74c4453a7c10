// The events of a run: each call with its answer.
use crate::marks::LineRefusal;
use crate::tag::{NoteRefusal, WipeRefusal};
use decoding::{Counts, ReadRefusal};

/// What fills the places of a journal before it is played. A play overwrites each place that it
/// uses.
pub const UNPLAYED: Event<'static> = Event::Wipe {
    cell: 1,
    answer: Ok(()),
};

/// An event of a run: a call with its answer. Cells are numbered from 1.
#[derive(Clone, Copy)]
pub enum Event<'a> {
    Note {
        cell: usize,
        letter: u32,
        answer: Result<(), NoteRefusal>,
    },
    Wipe {
        cell: usize,
        answer: Result<(), WipeRefusal>,
    },
    Line {
        text: &'a str,
        answer: Result<(), LineRefusal>,
    },
    /// A read was lent as many numbers as `shown` has, and `shown` is what they hold after it.
    Read {
        answer: Result<Counts, ReadRefusal>,
        shown: &'a [u32],
    },
}
