// The sums of a code's rows over the noted cells: the syndromes.
ghost use Rattle.std.specs.Prelude.{◌≡◌, ℕ, ◌<◌, length, slice_index};
ghost use Rattle.algebra.specs.Power.{times_power};
ghost use Rattle.codes.specs.Code.{code_of};
ghost use Rattle.codes.specs.Sums.{Summed, sums_number};

use crate::cell::Cell;
use crate::over::CodeOver;
use fields::Field;
use thiserror::Error;

/// Why no sums are written.
#[derive(Clone, Copy, PartialEq, Eq, Debug, Error)]
pub enum SumsRefusal {
    /// The cells or the multipliers are not as many as the locators, or the buffer is not as long
    /// as the code has rows.
    #[error("wrong length")]
    WrongLength = 25,
}

impl SumsRefusal {
    /// The refusal's number.
    pub fn number(self) -> u32
        ensures { result ≡ sums_number self }
    {
        self as u32
    }
}

impl<'a, F: Field> CodeOver<'a, F> {
    /// Writes into `sums`, a buffer of r numbers, the sum of each row over the noted cells. Refused
    /// with 25 where the cells or the multipliers are not as many as the locators, or the buffer
    /// has another length. The buffer is then as it was.
    pub fn sums(self, cells: &[Cell], sums: &mut [u32]) -> Result<(), SumsRefusal>
        ensures { Summed (F.Field.meaning self.entry.field.now).arithmetic
            (code_of self.entry.code) cells.now sums.old sums.new result }
    {
        let code = self.code;
        let n = code.locators.len();
        if code.multipliers.len() != n || cells.len() != n || sums.len() != code.rows {
            return Err(SumsRefusal::WrongLength);
        }
        sums.fill(0);
        // By index, since the sums are defined so: place j has the cell, the locator and the
        // multiplier of place j.
        for (j, cell) in cells.iter().enumerate() {
            if let Some(letter) = cell.letter {
                let weighted = self.field.mul(letter, code.multipliers[j]);
                add_powers(self.field, weighted, code.locators[j], sums);
            }
        }
        Ok(())
    }
}

/// Adds x × locator^k to the sum of row k, for every row. The slice may have any length.
pub fn add_powers<F: Field>(field: &F, x: u32, locator: u32, sums: &mut [u32])
    ensures { (k : ℕ) → k < length sums.new
        → slice_index sums.new k
        ≡ (F.Field.meaning field.now).arithmetic.plus (slice_index sums.old k)
        (times_power (F.Field.meaning field.now).arithmetic x locator k) }
{
    let mut term = x;
    for sum in sums.iter_mut() {
        *sum = field.add(*sum, term);
        term = field.mul(term, locator);
    }
}
