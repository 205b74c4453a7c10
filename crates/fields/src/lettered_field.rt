// A field that says which of its elements may be letters.
ghost use Rattle.std.specs.Prelude.{Decides};
ghost use Rattle.algebra.specs.Alphabet.{Alphabet};

use crate::field::Field;

/// A field that says which of its elements may be letters, and what the number of its kind is.
pub trait LetteredField: Field {
    /// The number that names the kind in a tray file. A number and no enum, since kinds are made
    /// outside the library too.
    const KIND: u32;

    /// May the numbers below `letters` be letters? Yes exactly when `letters` lies from 2 to the
    /// field's size, and every sum, difference and product of two numbers below `letters` is below
    /// it.
    fn admits(&self, letters: u32) -> bool
        ensures { Decides result (Alphabet (Self.Field.meaning self.now).arithmetic letters) };
}
