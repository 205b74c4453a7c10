// The letters of a row of cells, each after a space, and '?' for a blank.
ghost use Rattle.std.specs.Prelude.{Some};
ghost use Rattle.codes.specs.WordText.{cells_text};

use crate::cell::Cell;
use std::fmt;

/// A row of cells to print: each letter as a decimal number after a space, and '?' for a blank.
#[derive(Clone, Copy)]
pub struct CellRow<'a> {
    pub cells: &'a [Cell],
}

impl fmt::Display for CellRow<'_> {
    ghost output = { λ row. Some (cells_text row.cells.now) };

    fn fmt<W: fmt::Write>(&self, f: &mut fmt::Formatter<W>) -> fmt::Result {
        for cell in self.cells {
            match cell.letter {
                Some(letter) => write!(f, " {letter}")?,
                None => write!(f, " ?")?,
            }
        }
        Ok(())
    }
}
