// The letter at an erased place, from the annihilator of the erased locators and the sums over the
// other places.
ghost use Rattle.std.specs.Prelude.{◌≡◌, ◌≤◌, length};
ghost use Rattle.std.specs.Option.{unwrap_or};
ghost use Rattle.algebra.specs.Polynomial.{evaluate, quotient_linear, act};
ghost use Rattle.algebra.specs.Limits.{largest_rows};
ghost use Rattle.codes.specs.Cells.{blanks};
ghost use Rattle.decoding.specs.filling.Polynomials.{coefficients_of, degree_of};
ghost use Rattle.decoding.specs.filling.Fillings.{number_at, annihilator_below, letter_from};

use crate::filling::polynomial::Polynomial;
use codes::Cell;
use fields::Field;

// The annihilator of the erased locators, and the sums over the other places: one at least for each
// of its roots.
#[derive(Drop)]
pub(crate) struct Erasures<'a, F> {
    pub field: &'a F,
    pub annihilator: &'a Polynomial,
    pub sums: &'a [u32],
    ghost enough: { degree_of annihilator.now ≤ length sums.now },
}

// What the formula takes of a cofactor, the quotient of an annihilator by one of its factors.
#[derive(Drop)]
struct Cofactor {
    // Its action on the sums, Σ_k P_k S_k.
    action: u32,
    // Its value at the point of the factor.
    value: u32,
}

// The product of X − locator over the blank cells.
pub(crate) fn blank_annihilator<F: Field>(field: &F, locators: &[u32], cells: &[Cell]) -> Polynomial
    requires as_long { length locators.now ≡ length cells.now }
    requires few { blanks cells.now ≤ largest_rows }
    ensures product { coefficients_of result
        ≡ annihilator_below (F.Field.meaning field.now).arithmetic locators.now cells.now
        (length cells.now) }
    ensures power { degree_of result ≡ blanks cells.now }
{
    let mut product = Polynomial::one();
    for (cell, locator) in cells.iter().zip(locators) {
        if cell.letter.is_none() {
            product = product.times_linear(field, *locator);
        }
    }
    product
}

impl<'a, F: Field> Erasures<'a, F> {
    // The letter of a cell with this locator and this multiplier: the noted one, or at a blank the
    // one that the sums give.
    pub fn letter_of(&self, cell: Cell, locator: u32, multiplier: u32) -> u32
        ensures { result
            ≡ unwrap_or cell.letter
            (letter_from (F.Field.meaning self.now.field.now)
            (coefficients_of self.now.annihilator.now) (number_at self.now.sums.now)
            locator multiplier) }
    {
        match cell.letter {
            Some(letter) => letter,
            None => self.letter_at(locator, multiplier),
        }
    }

    // The letter at an erased place with this locator and this multiplier.
    fn letter_at(&self, locator: u32, multiplier: u32) -> u32
        ensures { result
            ≡ letter_from (F.Field.meaning self.now.field.now)
            (coefficients_of self.now.annihilator.now) (number_at self.now.sums.now)
            locator multiplier }
    {
        let cofactor = self.divide_linear(locator);
        let numerator = self.field.sub(0, cofactor.action);
        let denominator = self.field.mul(multiplier, cofactor.value);
        self.field
            .mul(numerator, self.field.invert(denominator).unwrap_or(0))
    }

    // Divides by X − point from the highest coefficient down (synthetic division); no coefficient
    // of the quotient is kept.
    fn divide_linear(&self, point: u32) -> Cofactor
        ensures action { result.action
            ≡ act (F.Field.meaning self.now.field.now).arithmetic
            (quotient_linear (F.Field.meaning self.now.field.now).arithmetic point
            (coefficients_of self.now.annihilator.now)) (number_at self.now.sums.now) 0 }
        ensures value { result.value
            ≡ evaluate (F.Field.meaning self.now.field.now).arithmetic
            (quotient_linear (F.Field.meaning self.now.field.now).arithmetic point
            (coefficients_of self.now.annihilator.now)) point }
    {
        let field = self.field;
        let mut quotient = 0;
        let mut action = 0;
        let mut value = 0;
        let higher = self.annihilator.coefficients()[1..].iter().rev();
        let sums = self.sums[..self.annihilator.degree()].iter().rev();
        for (coefficient, sum) in higher.zip(sums) {
            quotient = field.add(*coefficient, field.mul(point, quotient));
            action = field.add(field.mul(quotient, *sum), action);
            value = field.add(quotient, field.mul(point, value));
        }
        Cofactor { action, value }
    }
}
