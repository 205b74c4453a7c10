// Monday: the data letters are encoded, and all cells are inked.
ghost use Rattle.std.specs.Prelude.{◌≡◌};
ghost use Rattle.std.specs.Str.{chars};
ghost use Rattle.fields.specs.Elements.{AllBelow};
ghost use Rattle.decoding.specs.encoding.Encodings.{Encodes};
ghost use Rattle.demo.specs.inked.InkedTag.{inked_code, inked_meaning, inked_letters};
ghost use Rattle.demo.specs.inked.Inked.{InkedBy, LettersOf};
ghost use Rattle.demo.specs.declared.inked.monday.DataRefusal.TheVariants.{Line as line_refused};

use crate::inked::inspect::{CELLS, ROWS};
use codes::{Cell, INKED, inked_card};
use decoding::encode;
use tags::{LineRefusal, read_line};

pub const DATA: usize = CELLS - ROWS;

// Why data are refused.
#[derive(Clone, Copy, PartialEq, Eq, Debug)]
pub enum DataRefusal {
    Line(LineRefusal),
    // Data have no blanks; the place counts from 0.
    Blank { place: usize },
}

impl From<LineRefusal> for DataRefusal {
    ghost from_gives = { λ refusal result. result ≡ line_refused refusal };

    fn from(refusal: LineRefusal) -> DataRefusal {
        DataRefusal::Line(refusal)
    }
}

// The twenty letters to ink for a line of twelve data letters.
pub fn ink(line: &str) -> Result<[u32; CELLS], DataRefusal>
    ensures { InkedBy (chars line.now) result }
{
    let mut cells = [Cell::blank(); DATA];
    read_line(line, INKED.letters, &mut cells)?;
    let letters = letters_of(&cells)?;
    Ok(encoded(&letters))
}

// The letters of cells without a blank.
fn letters_of(cells: &[Cell; DATA]) -> Result<[u32; DATA], DataRefusal>
    ensures { LettersOf cells.now result }
{
    let mut letters = [0; DATA];
    // In one pass, by the place: of a zip with `iter_mut` a proof does not know what it wrote.
    for (place, cell) in cells.iter().enumerate() {
        let Some(letter) = cell.letter else {
            return Err(DataRefusal::Blank { place });
        };
        letters[place] = letter;
    }
    Ok(letters)
}

// The only codeword that begins with the letters.
fn encoded(letters: &[u32; DATA]) -> [u32; CELLS]
    requires { AllBelow inked_letters letters.now }
    ensures { Encodes inked_meaning inked_code letters.now result }
{
    let card = inked_card();
    let mut word = [0; CELLS];
    // Every letter is one of the card, and the lengths are the card's.
    encode(&card, letters, &mut word).unwrap();
    word
}
