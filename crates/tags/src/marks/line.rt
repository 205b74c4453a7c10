// A line of marks, read into cells.
ghost use Rattle.std.specs.Prelude.{◌≡◌, length, None};
ghost use Rattle.std.specs.Str.{chars};
ghost use Rattle.tags.specs.marks.Lines.{LineRead, FirstBad, Marked, line_number, marked_cell};

use crate::marks::mark::read_mark;
use codes::Cell;
use thiserror::Error;

/// Why a line is not read.
#[derive(Clone, Copy, PartialEq, Eq, Debug, Error)]
pub enum LineRefusal {
    /// The line has not as many marks as there are cells.
    #[error("wrong length")]
    WrongLength,
    /// The alphabet has more than 37 letters.
    #[error("bad mark")]
    UnmarkedAlphabet,
    /// A mark is no letter of the alphabet and no '?'. It is the first such one, and its place
    /// counts from 0.
    #[error("bad mark")]
    BadMark { place: usize },
}

// A case holds a place, so the numbers cannot stand at the cases.
impl LineRefusal {
    /// The refusal's number: 25, or 28 for a bad mark and for an alphabet that has letters without
    /// one.
    pub fn number(self) -> u32
        ensures { result ≡ line_number self }
    {
        match self {
            LineRefusal::WrongLength => 25,
            LineRefusal::UnmarkedAlphabet | LineRefusal::BadMark { .. } => 28,
        }
    }
}

// How many letters have a mark.
const MARKED_LETTERS: u32 = 37;

/// Sets all cells from a line of as many marks (characters, not bytes), each a letter below
/// `letters` or '?'. Refused with 25 where there are more or fewer marks, then 28 where `letters`
/// is above 37 or a mark is no such letter and no '?'. The cells are then as they were.
pub fn read_line(line: &str, letters: u32, cells: &mut [Cell]) -> Result<(), LineRefusal>
    ensures { LineRead letters (chars line.now) cells.old cells.new result }
{
    if count_marks(line) != cells.len() {
        return Err(LineRefusal::WrongLength);
    }
    if letters > MARKED_LETTERS {
        return Err(LineRefusal::UnmarkedAlphabet);
    }
    if let Some(place) = first_bad(line, letters) {
        return Err(LineRefusal::BadMark { place });
    }
    write_marks(line, letters, cells);
    Ok(())
}

/// How many marks a line has. They are its characters, not its bytes.
pub fn count_marks(line: &str) -> usize
    ensures { result ≡ length (chars line.now) }
{
    line.chars().count()
}

// The place of the first mark that is no letter of the alphabet and no blank.
fn first_bad(line: &str, letters: u32) -> Option<usize>
    ensures { FirstBad letters (chars line.now) result }
{
    line.chars()
        .position(|mark| marked(mark, letters).is_none())
}

fn write_marks(line: &str, letters: u32, cells: &mut [Cell])
    requires long { length (chars line.now) ≡ length cells.old }
    requires good { FirstBad letters (chars line.now) None }
    ensures { Marked letters (chars line.now) cells.new }
{
    // By the place: of a zip with `iter_mut` a proof does not know what it wrote.
    for (place, mark) in line.chars().enumerate() {
        if let Some(cell) = marked(mark, letters) {
            cells[place] = cell;
        }
    }
}

// The cell that a mark stands for, if it is a blank or a letter of the alphabet.
fn marked(mark: char, letters: u32) -> Option<Cell>
    ensures { result ≡ marked_cell letters mark }
{
    read_mark(mark)
        .ok()
        .filter(|cell| cell.letter.is_none_or(|letter| letter < letters))
}
