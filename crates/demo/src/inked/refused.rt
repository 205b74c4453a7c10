// How a refused line looks on paper.
ghost use Rattle.std.specs.Prelude.{◌≡◌, Some, length};
ghost use Rattle.std.specs.Str.{chars};
ghost use Rattle.demo.specs.inked.Texts.{line_word, refused_line_text, refused_data_text};

use crate::inked::monday::{DATA, DataRefusal};
use std::error::Error;
use std::fmt;
use tags::{LineRefusal, count_marks};

// The number of a line's refusal and its word. The library's words stand in a derive, which states
// no bytes.
#[derive(Clone, Copy)]
pub struct LineWord {
    pub refusal: LineRefusal,
}

impl fmt::Display for LineWord {
    ghost output = { λ w. Some (line_word w.refusal) };

    fn fmt<W: fmt::Write>(&self, f: &mut fmt::Formatter<W>) -> fmt::Result {
        let number = self.refusal.number();
        match self.refusal {
            LineRefusal::WrongLength => write!(f, "{number} wrong length"),
            LineRefusal::UnmarkedAlphabet | LineRefusal::BadMark { .. } => {
                write!(f, "{number} bad mark")
            }
        }
    }
}

// A line that was refused where some number of marks was wanted.
#[derive(Clone, Copy, Debug)]
pub struct RefusedLine {
    pub refusal: LineRefusal,
    pub wanted: usize,
    pub marks: usize,
}

impl RefusedLine {
    pub fn new(refusal: LineRefusal, wanted: usize, line: &str) -> RefusedLine
        ensures refusal { result.refusal ≡ refusal }
        ensures wanted { result.wanted ≡ wanted }
        ensures marks { result.marks ≡ length (chars line.now) }
    {
        RefusedLine {
            refusal,
            wanted,
            marks: count_marks(line),
        }
    }
}

impl Error for RefusedLine {}

impl fmt::Display for RefusedLine {
    ghost output = { λ l. Some (refused_line_text l) };

    fn fmt<W: fmt::Write>(&self, f: &mut fmt::Formatter<W>) -> fmt::Result {
        let word = LineWord {
            refusal: self.refusal,
        };
        write!(f, "{word}: ")?;
        match self.refusal {
            LineRefusal::WrongLength => {
                let wanted = self.wanted;
                let marks = self.marks;
                write!(f, "{wanted} marks are wanted, and there are {marks}")
            }
            LineRefusal::UnmarkedAlphabet => write!(f, "the alphabet has letters without a mark"),
            LineRefusal::BadMark { place } => {
                let cell = place as u128 + 1;
                write!(f, "mark {cell} is no letter and no '?'")
            }
        }
    }
}

// A line of data that was refused, of so many marks.
#[derive(Clone, Copy, Debug)]
pub struct RefusedData {
    pub refusal: DataRefusal,
    pub marks: usize,
}

impl RefusedData {
    pub fn new(refusal: DataRefusal, line: &str) -> RefusedData
        ensures refusal { result.refusal ≡ refusal }
        ensures marks { result.marks ≡ length (chars line.now) }
    {
        let marks = count_marks(line);
        RefusedData { refusal, marks }
    }
}

impl Error for RefusedData {}

impl fmt::Display for RefusedData {
    ghost output = { λ d. Some (refused_data_text d) };

    fn fmt<W: fmt::Write>(&self, f: &mut fmt::Formatter<W>) -> fmt::Result {
        match self.refusal {
            DataRefusal::Line(refusal) => {
                let line = RefusedLine {
                    refusal,
                    wanted: DATA,
                    marks: self.marks,
                };
                write!(f, "{line}")
            }
            DataRefusal::Blank { place } => {
                let cell = place as u128 + 1;
                write!(f, "data letter {cell} is blank")
            }
        }
    }
}
