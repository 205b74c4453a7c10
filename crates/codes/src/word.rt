// The letters of a word, each after a space.
ghost use Rattle.std.specs.Prelude.{Some};
ghost use Rattle.codes.specs.WordText.{word_text};

use std::fmt;

/// A word to print: each letter as a decimal number after a space.
#[derive(Clone, Copy)]
pub struct Word<'a> {
    pub letters: &'a [u32],
}

impl fmt::Display for Word<'_> {
    ghost output = { λ w. Some (word_text w.letters.now) };

    fn fmt<W: fmt::Write>(&self, f: &mut fmt::Formatter<W>) -> fmt::Result {
        for letter in self.letters {
            write!(f, " {letter}")?;
        }
        Ok(())
    }
}
