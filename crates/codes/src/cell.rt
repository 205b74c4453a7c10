// A cell of a tag: a letter, or nothing where it is blank.
ghost use Rattle.std.specs.Prelude.{◌≡◌};
ghost use Rattle.codes.specs.Cells.{blank_cell, noted_cell};

/// A cell of a tag: a letter, or nothing where it is blank. A blank is not the letter 0.
#[derive(Clone, Copy, PartialEq, Eq, Debug, Default)]
pub struct Cell {
    /// The noted letter, or `None` where the cell is blank.
    pub letter: Option<u32>,
}

impl Cell {
    /// A cell that holds this letter. Whether it is a letter of an alphabet is not asked.
    pub fn noted(letter: u32) -> Cell
        ensures { result ≡ noted_cell letter }
    {
        Cell {
            letter: Some(letter),
        }
    }

    /// A blank cell.
    pub fn blank() -> Cell
        ensures { result ≡ blank_cell }
    {
        Cell { letter: None }
    }
}
