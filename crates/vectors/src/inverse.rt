// How an inverse is shown: after a space, as a '-' where there is none.
ghost use Rattle.std.specs.Prelude.{Some};
ghost use Rattle.vectors.specs.InverseText.{inverse_text};

use std::fmt;

#[derive(Clone, Copy)]
pub struct Inverse {
    pub value: Option<u32>,
}

impl fmt::Display for Inverse {
    ghost output = { λ i. Some (inverse_text i.value) };

    fn fmt<W: fmt::Write>(&self, f: &mut fmt::Formatter<W>) -> fmt::Result {
        match self.value {
            Some(b) => write!(f, " {b}"),
            None => write!(f, " -"),
        }
    }
}
