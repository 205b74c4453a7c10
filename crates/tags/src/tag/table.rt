// The table of a tag's cells.
ghost use Rattle.std.specs.Prelude.{◌≡◌, ◌<◌, length, slice_set};
ghost use Rattle.algebra.specs.Limits.{largest_cells};

use algebra::LARGEST_CELLS;
use codes::Cell;

// A plain table of fixed size, and no vector: how many of its cells are the tag's own is the card's
// to say.
#[derive(Drop)]
pub(crate) struct Table {
    pub(crate) cells: [Cell; LARGEST_CELLS],
}

impl Table {
    // Changes one cell.
    pub(crate) fn put(&mut self, place: usize, cell: Cell)
        requires long { length self.old.cells ≡ largest_cells }
        requires within { place < largest_cells }
        ensures { self.new.cells ≡ slice_set self.old.cells place cell }
    {
        self.cells[place] = cell;
    }
}
