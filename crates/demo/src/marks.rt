// The marks in which a word is shown.
ghost use Rattle.std.specs.Prelude.{◌≡◌, ◌<◌, Some};
ghost use Rattle.codes.specs.Cells.{noted_cell};
ghost use Rattle.tags.specs.marks.Marks.{cell_of_mark, marked_letters};
ghost use Rattle.demo.specs.MarkTexts.{shown_mark, marks_text};

use std::fmt;

const MARKS: [char; 37] = [
    '0', '1', '2', '3', '4', '5', '6', '7', '8', '9', 'A', 'B', 'C', 'D', 'E', 'F', 'G', 'H', 'I',
    'J', 'K', 'L', 'M', 'N', 'O', 'P', 'Q', 'R', 'S', 'T', 'U', 'V', 'W', 'X', 'Y', 'Z', '-',
];

// The mark that stands for the letter, or '?' where none does.
pub fn mark_of(letter: u32) -> char
    ensures shown { result ≡ shown_mark letter }
    ensures stands { letter < marked_letters → cell_of_mark result ≡ Some (noted_cell letter) }
{
    MARKS.get(letter as usize).copied().unwrap_or('?')
}

// A word in its marks.
#[derive(Clone, Copy)]
pub struct Marks<'a> {
    pub word: &'a [u32],
}

impl fmt::Display for Marks<'_> {
    ghost output = { λ m. Some (marks_text m.word.now) };

    fn fmt<W: fmt::Write>(&self, f: &mut fmt::Formatter<W>) -> fmt::Result {
        for letter in self.word {
            let mark = mark_of(*letter);
            write!(f, "{mark}")?;
        }
        Ok(())
    }
}
