// A word that was read.
use algebra::LARGEST_CELLS;
use decoding::Counts;
use shortlist::ShortList;

/// The word, and how many cells are wrong and how many blank.
#[derive(Clone, Copy)]
pub struct WordRead {
    /// How many cells are wrong and how many blank.
    pub counts: Counts,
    /// The n letters of the word.
    pub letters: ShortList<LARGEST_CELLS>,
}
