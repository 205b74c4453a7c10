// Inverses modulo an irreducible polynomial, by Euclid's algorithm.
ghost use Rattle.std.specs.Prelude.{◌≡◌, ℕ, ◌^◌, ◌<◌};
ghost use Rattle.fields.specs.CarrylessProduct.{◌⊗◌};
ghost use Rattle.fields.specs.LongDivision.{Degree, remainder};
ghost use Rattle.fields.specs.Irreducible.{Irreducible};

use crate::binary_field::polynomial::degree_of;

// The polynomial that times `a` makes 1 modulo `f`. A turn that does not swap lowers the degree of
// `u`, and no two swaps follow one another, so the turns are at most 4 × the degree of `f`.
pub fn inverse(a: u32, f: u32) -> u32
    requires irreducible { Irreducible f }
    requires positive { 0 < a }
    requires element { (k : ℕ) → Degree f k → a < 2 ^ k }
    ensures below { (k : ℕ) → Degree f k → result < 2 ^ k }
    ensures inverts { (k : ℕ) → Degree f k → remainder f k (a ⊗ result) ≡ 1 }
{
    let mut u = f;
    let mut v = a;
    // Modulo f, u is g × a and v is h × a.
    let mut g = 0;
    let mut h = 1;
    while v != 1 {
        if u < v {
            (u, v) = (v, u);
            (g, h) = (h, g);
        } else {
            let shift = degree_of(u) - degree_of(v);
            u ^= v << shift;
            g ^= h << shift;
        }
    }
    h
}
