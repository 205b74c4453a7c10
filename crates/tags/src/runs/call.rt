// The calls of a run.
ghost use Rattle.std.specs.Prelude.{◌≡◌};
ghost use Rattle.tags.specs.runs.Rooms.{lent_to};

/// A call of a run. Cells are numbered from 1.
#[derive(Clone, Copy)]
pub enum Call<'a> {
    /// Puts the letter into the cell.
    Note { cell: usize, letter: u32 },
    /// Makes the cell blank.
    Wipe { cell: usize },
    /// Sets all cells from the marks of the text.
    Line { text: &'a str },
    /// A read into this many numbers.
    Read { length: usize },
}

impl<'a> Call<'a> {
    /// How many numbers of a room the call is lent: a read as many as it reads into, and any other
    /// call none.
    pub fn lent(&self) -> usize
        ensures { result ≡ lent_to self.now }
    {
        match *self {
            Call::Read { length } => length,
            Call::Note { .. } | Call::Wipe { .. } | Call::Line { .. } => 0,
        }
    }
}
