// A field of a third kind, made outside the library by its public traits alone: the field of four
// elements, by tables.
mod tables;

ghost use Rattle.std.specs.Prelude.{◌≡◌, ◌⊎◌, Decides};
ghost use Rattle.kimzhadyr.specs.Alphabet.{Alphabet};

use crate::four_field::tables::{INVERSES, PRODUCTS, SIZE, SUMS, look_up};
use kimzhadyr::field::{Field, LetteredField};

#[derive(Clone, Copy)]
pub struct FourField;

impl Field for FourField {
    ghost use Rattle.outside.specs.four_field.FourElements.{four_meaning, four_accepted};
    ghost use Rattle.outside.specs.four_field.FourLaws.{four_laws};

    ghost meaning = { four_meaning };

    ghost accepted = { four_accepted };

    ghost lawful = { λ x accepted. four_laws };

    fn size(&self) -> u32 {
        SIZE
    }

    fn add(&self, a: u32, b: u32) -> u32 {
        look_up(&SUMS, a, b)
    }

    // Every element is its own negative.
    fn sub(&self, a: u32, b: u32) -> u32 {
        look_up(&SUMS, a, b)
    }

    fn mul(&self, a: u32, b: u32) -> u32 {
        look_up(&PRODUCTS, a, b)
    }

    fn invert(&self, a: u32) -> Option<u32> {
        INVERSES.get(a as usize).copied().flatten()
    }
}

impl LetteredField for FourField {
    ghost use Rattle.outside.specs.four_field.FourElements.{four_elements};

    const KIND: u32 = 4;

    // Three would not be closed: 1 + 2 is 3.
    fn admits(&self, letters: u32) -> bool
        ensures closed { Decides result (Alphabet four_elements letters) }
        ensures only { Decides result ((letters ≡ 2) ⊎ (letters ≡ 4)) }
    {
        letters == 2 || letters == SIZE
    }
}
