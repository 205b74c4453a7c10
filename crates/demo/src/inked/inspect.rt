// What a line of marks is on the inked card.
ghost use Rattle.std.specs.Prelude.{◌≡◌, Some};
ghost use Rattle.std.specs.Str.{chars};
ghost use Rattle.codes.specs.Cells.{noted};
ghost use Rattle.demo.specs.inked.Inspected.{Inspected, InspectedCells};
ghost use Rattle.demo.specs.inked.Texts.{inspection_text};

use codes::{Cell, CellRow, INKED, Standing, Word, inked_card};
use std::fmt;
use tags::{LineRefusal, read_line};

pub const CELLS: usize = INKED.cells;

pub const ROWS: usize = INKED.rows;

#[derive(Drop)]
pub struct Inspection {
    pub cells: [Cell; CELLS],
    pub sums: [u32; ROWS],
    pub standing: Standing,
}

// What a line of marks is.
pub fn inspect_line(line: &str) -> Result<Inspection, LineRefusal>
    ensures { Inspected (chars line.now) result }
{
    let mut cells = [Cell::blank(); CELLS];
    read_line(line, INKED.letters, &mut cells)?;
    Ok(inspect_cells(cells))
}

// What the cells are.
pub fn inspect_cells(cells: [Cell; CELLS]) -> Inspection
    ensures { InspectedCells cells result }
{
    let card = inked_card();
    let mut sums = [0; ROWS];
    // The lengths are the card's, so the sums are not refused.
    let standing = card.over().judge(&cells, &mut sums).unwrap();
    Inspection {
        cells,
        sums,
        standing,
    }
}

// The cells in which a word is noted.
pub fn noted_cells(word: &[u32; CELLS]) -> [Cell; CELLS]
    ensures { result ≡ noted word.now }
{
    word.map(|letter| Cell::noted(letter))
}

impl fmt::Display for Inspection {
    ghost output = { λ i. Some (inspection_text i) };

    fn fmt<W: fmt::Write>(&self, f: &mut fmt::Formatter<W>) -> fmt::Result {
        let cells = CellRow { cells: &self.cells };
        let sums = Word {
            letters: &self.sums,
        };
        write!(f, "  cells:{cells}\n  sums:{sums}\n")?;
        match self.standing {
            Standing::Codeword => write!(f, "  a codeword"),
            Standing::Unfinished { blanks } => write!(f, "  unfinished, blank cells: {blanks}"),
            Standing::Damaged => write!(f, "  damaged"),
        }
    }
}
