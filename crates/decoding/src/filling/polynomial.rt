// Polynomials over a field's elements: their coefficients, and their products with linear factors.
ghost use Rattle.std.specs.Prelude.{◌<◌, length, ◌≡◌, suc, ◌≤◌, [], ◌∷◌};
ghost use Rattle.algebra.specs.Polynomial.{linear_product};
ghost use Rattle.algebra.specs.Limits.{largest_rows};

use algebra::COEFFICIENTS;
use fields::Field;
use shortlist::ShortList;

#[derive(Clone, Copy)]
pub(crate) struct Polynomial {
    // The constant term first.
    coefficients: ShortList<COEFFICIENTS>,
    ghost constant: { 0 < length coefficients },
}

impl Polynomial {
    ghost use Rattle.decoding.specs.filling.Polynomials.{coefficients_of, degree_of};

    pub fn one() -> Polynomial
        ensures value { coefficients_of result ≡ 1 ∷ [] }
        ensures constant { degree_of result ≡ 0 }
    {
        let mut coefficients = ShortList::new();
        coefficients.push(1);
        Polynomial { coefficients }
    }

    pub fn degree(&self) -> usize
        ensures value { result ≡ degree_of self.now }
        ensures fits { result ≤ largest_rows }
    {
        self.coefficients.len() - 1
    }

    // The constant term first.
    pub fn coefficients(&self) -> &[u32]
        ensures value { result.now ≡ coefficients_of self.now }
        ensures one_more { length result.now ≡ suc (degree_of self.now) }
        ensures fits { length result.now ≤ suc largest_rows }
    {
        self.coefficients.as_slice()
    }

    // The product with X − point.
    pub fn times_linear<F: Field>(self, field: &F, point: u32) -> Polynomial
        requires { degree_of self < largest_rows }
        ensures product { coefficients_of result
            ≡ linear_product (F.Field.meaning field.now).arithmetic point (coefficients_of self) }
        ensures higher { degree_of result ≡ suc (degree_of self) }
    {
        let mut coefficients = ShortList::new();
        // The coefficient of the power below.
        let mut below = 0;
        for coefficient in self.coefficients() {
            coefficients.push(field.sub(below, field.mul(point, *coefficient)));
            below = *coefficient;
        }
        coefficients.push(below);
        Polynomial { coefficients }
    }
}
