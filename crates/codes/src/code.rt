// The plain values of a code, lent.

/// The plain values of a code, lent. They may break the rules of a card.
#[derive(Clone, Copy)]
pub struct CodeRef<'a> {
    /// The alphabet size: the letters are the numbers below it.
    pub letters: u32,
    /// How many sums a codeword makes 0.
    pub rows: usize,
    /// One locator and one multiplier for each cell. Two lists and not one of pairs: a card is
    /// refused where their lengths differ.
    pub locators: &'a [u32],
    /// One for each cell, as the locators.
    pub multipliers: &'a [u32],
}
