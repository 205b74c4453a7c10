// How a tag is damaged, and what reading it is to find.
ghost use Rattle.std.specs.Prelude.{◌≡◌};
ghost use Rattle.bench.specs.Letters.{another_letter};

use std::fmt;

#[derive(Clone, Copy)]
pub struct Damage {
    pub wrong: usize,
    pub blank: usize,
}

impl Damage {
    ghost use Rattle.bench.specs.Damaged.{noted_letter};

    // The letter to note at a place in place of the word's; none in the first cells.
    pub fn noted(self, place: usize, letter: u32) -> Option<u32>
        ensures { result ≡ noted_letter self place letter }
    {
        if place < self.blank {
            None
        } else if place - self.blank < self.wrong {
            Some(another_letter(letter))
        } else {
            Some(letter)
        }
    }
}

pub const DAMAGES: [Damage; 7] = [
    Damage { wrong: 0, blank: 0 },
    Damage { wrong: 1, blank: 0 },
    Damage { wrong: 4, blank: 0 },
    Damage { wrong: 8, blank: 0 },
    Damage { wrong: 0, blank: 8 },
    Damage {
        wrong: 0,
        blank: 16,
    },
    Damage { wrong: 4, blank: 8 },
];

impl fmt::Display for Damage {
    fn fmt<W: fmt::Write>(&self, f: &mut fmt::Formatter<W>) -> fmt::Result {
        let wrong = self.wrong;
        let blank = self.blank;
        write!(f, "{wrong} wrong, {blank} blank")
    }
}

// A letter of every alphabet, and another one.
fn another_letter(letter: u32) -> u32
    ensures { result ≡ another_letter letter }
{
    if letter == 0 { 1 } else { 0 }
}
