// What an inked tag reads as.
ghost use Rattle.std.specs.Prelude.{◌≡◌, Some};
ghost use Rattle.demo.specs.Texts.{tag_text, read_word, unread_text};
ghost use Rattle.demo.specs.declared.found.Unread.TheVariants.{Line as not_noted, Read as not_read};

use crate::inked::{CELLS, LineWord};
use crate::marks::Marks;
use codes::Word;
use decoding::{Counts, ReadRefusal};
use std::fmt;
use tags::LineRefusal;

// The word, how many cells are wrong and how many blank.
#[derive(Clone, Copy)]
pub struct TagRead {
    pub counts: Counts,
    pub word: [u32; CELLS],
}

// The line could not be noted, or the tag does not read.
#[derive(Clone, Copy)]
pub enum Unread {
    Line(LineRefusal),
    Read(ReadRefusal),
}

impl From<LineRefusal> for Unread {
    ghost from_gives = { λ refusal result. result ≡ not_noted refusal };

    fn from(refusal: LineRefusal) -> Unread {
        Unread::Line(refusal)
    }
}

impl From<ReadRefusal> for Unread {
    ghost from_gives = { λ refusal result. result ≡ not_read refusal };

    fn from(refusal: ReadRefusal) -> Unread {
        Unread::Read(refusal)
    }
}

impl fmt::Display for TagRead {
    ghost output = { λ r. Some (tag_text r) };

    fn fmt<W: fmt::Write>(&self, f: &mut fmt::Formatter<W>) -> fmt::Result {
        let wrong = self.counts.wrong;
        let blank = self.counts.blank;
        let word = Word {
            letters: &self.word,
        };
        let marks = Marks { word: &self.word };
        write!(f, "  corrected: {wrong}, filled: {blank}\n")?;
        write!(f, "  letters:{word}\n  marks: {marks}")
    }
}

// The number of a read's refusal and its word, as `LineWord` has a line's.
#[derive(Clone, Copy)]
struct ReadWord {
    refusal: ReadRefusal,
}

impl fmt::Display for ReadWord {
    ghost output = { λ w. Some (read_word w.refusal) };

    fn fmt<W: fmt::Write>(&self, f: &mut fmt::Formatter<W>) -> fmt::Result {
        let number = self.refusal.number();
        match self.refusal {
            ReadRefusal::WrongLength => write!(f, "{number} wrong length"),
            ReadRefusal::TooBlank => write!(f, "{number} too blank"),
            ReadRefusal::Lost => write!(f, "{number} lost"),
        }
    }
}

impl fmt::Display for Unread {
    ghost output = { λ u. Some (unread_text u) };

    fn fmt<W: fmt::Write>(&self, f: &mut fmt::Formatter<W>) -> fmt::Result {
        match *self {
            Unread::Line(refusal) => {
                let word = LineWord { refusal };
                write!(f, "  the line is not noted: {word}")
            }
            Unread::Read(refusal) => {
                let word = ReadWord { refusal };
                write!(f, "  it does not read: {word}")
            }
        }
    }
}
