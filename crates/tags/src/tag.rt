// A tag: the cells that are noted of one coin, beside its card, and its calls.
mod note_refusal;
mod table;
mod wipe_refusal;

ghost use Rattle.std.specs.Prelude.{◌≡◌, length, take};
ghost use Rattle.std.specs.Str.{chars};
ghost use Rattle.algebra.specs.Limits.{largest_cells};
ghost use Rattle.codes.specs.Standings.{Lettered};
ghost use Rattle.codes.specs.Cards.{card_code};
ghost use Rattle.decoding.specs.reading.Reading.{OneReading, Reading};
ghost use Rattle.tags.specs.marks.Lines.{LineRead, line_number};
ghost use Rattle.tags.specs.tag.Sheet.{blank_sheet, place_in, refusal_of_note, refusal_of_wipe, refusal_of_line, after_note, after_wipe, after_line, refused};

use crate::marks::{LineRefusal, read_line};
use crate::tag::table::Table;
use algebra::LARGEST_CELLS;
use codes::{Card, Cell, SumsRefusal};
use decoding::{Counts, ReadRefusal, read_cells};
use fields::LetteredField;
pub use note_refusal::NoteRefusal;
pub use wipe_refusal::WipeRefusal;

/// A tag of a checked card: n cells, each of which holds a letter or is blank. The tag's cells
/// stand in the first places of the table, one for each locator of the card, and the other places
/// are never read. Every noted letter is one of the alphabet.
#[derive(Drop)]
pub struct Tag<'a, F: LetteredField> {
    card: &'a Card<F>,
    table: Table,
    ghost long: { length table.cells ≡ largest_cells },
    ghost lettered: { ∥ Lettered card.now.letters
        (take (length card.now.locators.items) table.cells) ∥₁ },
}

// Each change says in `card` that the tag is still one of its card: a relation of both ends, which
// no invariant can hold.
impl<'a, F: LetteredField> Tag<'a, F> {
    ghost use Rattle.tags.specs.tag.Tags.{tag_arithmetic, tag_code, tag_cells, note_number, wipe_number, TagSummed};

    /// A tag of the card, every cell blank.
    pub fn open(card: &'a Card<F>) -> Tag<'a, F>
        ensures same { result.card.now ≡ card.now }
        ensures blank { tag_cells result ≡ blank_sheet (card_code card.now) }
    {
        Tag {
            card,
            table: Table {
                cells: [Cell::blank(); LARGEST_CELLS],
            },
        }
    }

    /// Puts a letter into one cell, and touches no other. Cells are numbered from 1. Refused with
    /// 21 where there is no such cell, then 22 where the value is no letter. The tag is then as it
    /// was.
    pub fn note(&mut self, cell: usize, letter: u32) -> Result<(), NoteRefusal>
        ensures answer { refused note_number result
            ≡ refusal_of_note (tag_code self.old) cell letter }
        ensures cells { tag_cells self.new
            ≡ after_note (tag_code self.old) cell letter (tag_cells self.old) }
        ensures card { self.new.card.now ≡ self.old.card.now }
    {
        let place = self.place_of(cell).ok_or(NoteRefusal::NoSuchCell)?;
        if letter >= self.card.code().letters {
            return Err(NoteRefusal::NoLetter);
        }
        self.table.put(place, Cell::noted(letter));
        Ok(())
    }

    /// Makes one cell blank, and touches no other. Cells are numbered from 1. Refused with 21 where
    /// there is no such cell. The tag is then as it was.
    pub fn wipe(&mut self, cell: usize) -> Result<(), WipeRefusal>
        ensures answer { refused wipe_number result ≡ refusal_of_wipe (tag_code self.old) cell }
        ensures cells { tag_cells self.new
            ≡ after_wipe (tag_code self.old) cell (tag_cells self.old) }
        ensures card { self.new.card.now ≡ self.old.card.now }
    {
        let place = self.place_of(cell).ok_or(WipeRefusal::NoSuchCell)?;
        self.table.put(place, Cell::blank());
        Ok(())
    }

    /// Sets all n cells from a line of n marks (characters, not bytes). Refused with 25 where the
    /// line has another length, then 28 where the alphabet has more than 37 letters or a mark is no
    /// letter of it and no '?'. The tag is then as it was.
    pub fn line(&mut self, line: &str) -> Result<(), LineRefusal>
        ensures marks { LineRead (tag_code self.old).letters (chars line.now)
            (tag_cells self.old) (tag_cells self.new) result }
        ensures answer { refused line_number result
            ≡ refusal_of_line (tag_code self.old) (chars line.now) }
        ensures cells { tag_cells self.new
            ≡ after_line (tag_code self.old) (chars line.now) (tag_cells self.old) }
        ensures card { self.new.card.now ≡ self.old.card.now }
    {
        let letters = self.card.code().letters;
        let width = self.card.cells();
        read_line(line, letters, &mut self.table.cells[0..width])
    }

    /// Writes into `buffer`, of r numbers, the sum of each row over the noted cells. Refused with
    /// 25 where the buffer has another length. It is then as it was.
    pub fn sums(&self, buffer: &mut [u32]) -> Result<(), SumsRefusal>
        ensures { TagSummed (tag_arithmetic self.now) (tag_code self.now) (tag_cells self.now)
            buffer.old buffer.new result }
    {
        self.card.over().sums(self.cells(), buffer)
    }

    /// Writes the near codeword into `word`, a buffer of n numbers, and answers how many cells are
    /// wrong and how many are blank. Refused with 25 where the buffer has another length, then 23
    /// where more cells are blank than the card has rows, then 24 where no codeword is near. The
    /// buffer is then as it was.
    pub fn read(&self, word: &mut [u32]) -> Result<Counts, ReadRefusal>
        ensures reading { Reading (tag_arithmetic self.now) (tag_code self.now)
            (tag_cells self.now) word.old word.new result }
        // No other answer and no other content of the buffer meets it.
        ensures one { OneReading }
    {
        read_cells(self.card, self.cells(), word)
    }

    // The tag's own cells.
    fn cells(&self) -> &[Cell]
        ensures { result.now ≡ tag_cells self.now }
    {
        &self.table.cells[0..self.card.cells()]
    }

    // The place of a cell in the table, if the tag has the cell.
    fn place_of(&self, cell: usize) -> Option<usize>
        ensures { result ≡ place_in (tag_code self.now) cell }
    {
        cell.checked_sub(1)
            .filter(|place| *place < self.card.cells())
    }
}
