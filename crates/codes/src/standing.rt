// Whether a line of cells is a codeword.
ghost use Rattle.std.specs.Prelude.{◌≡◌, Decides};
ghost use Rattle.codes.specs.Code.{code_of};
ghost use Rattle.codes.specs.Cells.{blanks};
ghost use Rattle.codes.specs.Standings.{Judgement, Lettered, AllZero};

use crate::cell::Cell;
use crate::over::CodeOver;
use crate::syndromes::SumsRefusal;
use fields::Field;

/// What is said of a line of cells.
#[derive(Clone, Copy, PartialEq, Eq, Debug)]
pub enum Standing {
    /// No cell is blank, and the letters are a codeword.
    Codeword,
    /// At least one cell is blank: so many are.
    Unfinished { blanks: usize },
    /// No cell is blank, and the letters are no codeword.
    Damaged,
}

impl<'a, F: Field> CodeOver<'a, F> {
    /// Writes the sums into `row_sums`, a buffer of r numbers, and says whether the cells are a
    /// codeword. Refused with 25 where the cells or the multipliers are not as many as the
    /// locators, or the buffer has another length. The buffer is then as it was.
    pub fn judge(self, cells: &[Cell], row_sums: &mut [u32]) -> Result<Standing, SumsRefusal>
        ensures { Judgement (F.Field.meaning self.entry.field.now).arithmetic
            (code_of self.entry.code) cells.now row_sums.old row_sums.new result }
    {
        self.sums(cells, row_sums)?;
        let blanks = count_blanks(cells);
        if blanks > 0 {
            return Ok(Standing::Unfinished { blanks });
        }
        if lettered(cells, self.code.letters) && all_zero(row_sums) {
            Ok(Standing::Codeword)
        } else {
            Ok(Standing::Damaged)
        }
    }
}

/// How many cells are blank.
pub fn count_blanks(cells: &[Cell]) -> usize
    ensures { result ≡ blanks cells.now }
{
    cells.iter().filter(|cell| cell.letter.is_none()).count()
}

/// Is every noted letter one of the alphabet? The alphabet is the numbers below `letters`. Blank
/// cells are passed over.
pub fn lettered(cells: &[Cell], letters: u32) -> bool
    ensures { Decides result (Lettered letters cells.now) }
{
    cells
        .iter()
        .all(|cell| cell.letter.is_none_or(|letter| letter < letters))
}

/// Are all numbers 0?
pub fn all_zero(numbers: &[u32]) -> bool
    ensures { Decides result (AllZero numbers.now) }
{
    numbers.iter().all(|x| *x == 0)
}
