// Polynomials over a field, in arrays that never grow.
ghost use Rattle.std.specs.Prelude.{◌≡◌, ◌<◌};
ghost use Rattle.algebra.specs.Limits.{coefficients};
ghost use Rattle.minimal_pairs.specs.Poly.{constant, coefficient, combined, UpTo};

use algebra::COEFFICIENTS;
use fields::Field;

// Not the `Polynomial` of `decoding`: the degree here is that of a pair, and every place is handed
// out. Neither `Copy` nor `Clone`: a polynomial changes in its own places.
#[derive(Drop)]
pub struct Poly {
    // The constant term first, and zeros above the degree.
    pub coeffs: [u32; COEFFICIENTS],
}

impl Poly {
    pub fn constant(x: u32) -> Poly
        ensures { result ≡ constant x }
    {
        let mut coeffs = [0; COEFFICIENTS];
        coeffs[0] = x;
        Poly { coeffs }
    }

    // Puts two polynomials in each other's places, up to X^degree; above it both are 0.
    pub fn exchange(&mut self, other: &mut Poly, degree: usize)
        requires small { degree < coefficients }
        requires up_to { UpTo degree self.old }
        requires other_up_to { UpTo degree other.old }
        ensures self_after { self.new ≡ other.old }
        ensures other_after { other.new ≡ self.old }
    {
        // Those above the degree hold zeros in both, and are not touched.
        self.coeffs[..=degree].swap_with_slice(&mut other.coeffs[..=degree]);
    }
}

// a × p − b × X^d × q up to X^degree, in the places of p.
#[derive(Clone, Copy)]
pub struct Combination {
    pub a: u32,
    pub b: u32,
    pub d: usize,
    pub degree: usize,
    ghost small: { degree < coefficients },
}

impl Combination {
    pub fn combine<F: Field>(&self, field: &F, p: &mut Poly, q: &Poly)
        requires { UpTo self.now.degree p.old }
        ensures { p.new ≡ combined (F.Field.meaning field.now).arithmetic
            self.now.a p.old self.now.b self.now.d q.now self.now.degree }
    {
        // By place: `array::from_fn` goes through all 65, and those above the degree hold zeros and
        // are not to be touched; a coefficient reads both polynomials, so the places of one cannot
        // be lent out meanwhile.
        for j in 0..self.degree + 1 {
            p.coeffs[j] = self.coefficient(field, p, q, j);
        }
    }

    // The coefficient of X^j.
    fn coefficient<F: Field>(&self, field: &F, p: &Poly, q: &Poly, j: usize) -> u32
        requires { j < coefficients }
        ensures { result ≡ coefficient (F.Field.meaning field.now).arithmetic
            self.now.a p.now self.now.b self.now.d q.now j }
    {
        let scaled = field.mul(self.a, p.coeffs[j]);
        if j < self.d {
            scaled
        } else {
            field.sub(scaled, field.mul(self.b, q.coeffs[j - self.d]))
        }
    }
}
