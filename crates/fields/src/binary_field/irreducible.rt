// Which polynomials have no factors.
ghost use Rattle.std.specs.Prelude.{◌≡◌, ◌<◌, ◌⊎◌, Decides, false};
ghost use Rattle.fields.specs.Irreducible.{Irreducible, Factored};

use crate::binary_field::polynomial::{degree_of, remainder_of};

// Is `f` irreducible? Of two factors one has at most half the degree of `f`, so it tries all
// divisors of such degrees.
pub fn is_irreducible(f: u32) -> bool
    ensures decides { Decides result (Irreducible f) }
    ensures factors { result ≡ false → (f < 2) ⊎ Factored f }
{
    if f < 2 {
        return false;
    }
    let limit = 2 << (degree_of(f) / 2);
    // Tried by `all`, and the proof did not close: it takes the test as a function of the divisor,
    // and a remainder is one only of divisors that have a degree.
    for divisor in 2..limit {
        if remainder_of(f, divisor) == 0 {
            return false;
        }
    }
    true
}
