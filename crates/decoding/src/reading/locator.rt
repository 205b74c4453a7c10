// The error locator: a polynomial of least degree that fits the modified syndromes.
ghost use Rattle.std.specs.Prelude.{◌≡◌, ℕ, ◌+◌, ◌<◌, ◌≤◌, length, slice_index};
ghost use Rattle.algebra.specs.Polynomial.{act};
ghost use Rattle.algebra.specs.Limits.{coefficients};
ghost use Rattle.codes.specs.Cards.{card_arithmetic, card_code};
ghost use Rattle.codes.specs.Sums.{syndromes};
ghost use Rattle.decoding.specs.filling.Fillings.{number_at};
ghost use Rattle.decoding.specs.filling.Polynomials.{coefficients_of, degree_of};
ghost use Rattle.decoding.specs.reading.Decoding.{Locates};

use crate::filling::{Polynomial, blank_annihilator};
use crate::reading::found::FoundCells;
use algebra::{COEFFICIENTS, LARGEST_ROWS};
use fields::{Field, LetteredField};
use minimal_pairs::realise;

impl<'a, F: LetteredField> FoundCells<'a, F> {
    // Writes the error locator into `locator`, as `realise` writes it, and answers its degree.
    // `sums` has the syndromes of the cells.
    pub fn error_locator(&self, sums: &[u32], locator: &mut [u32]) -> usize
        requires summed { sums.now
            ≡ syndromes (card_arithmetic self.now.card.now) (card_code self.now.card.now)
            self.now.cells.now }
        requires room { length locator.old ≡ coefficients }
        ensures short { result < coefficients }
        ensures locates { Locates (card_arithmetic self.now.card.now)
            (card_code self.now.card.now) self.now.cells.now result locator.new }
    {
        let field = self.card.field();
        let code = self.card.code();
        let product = blank_annihilator(field, code.locators, self.cells);
        let mut modified = [0; LARGEST_ROWS];
        let modified = &mut modified[0..code.rows - self.blank];
        modified_sums(field, &product, sums, modified);
        let mut partner = [0; COEFFICIENTS];
        // The modified sums are elements, no more than the rows, so they are not refused.
        realise(field, modified, locator, &mut partner).unwrap()
    }
}

// Writes into `modified` what the polynomial gives when it is applied to the sums, from each row
// on.
fn modified_sums<F: Field>(field: &F, product: &Polynomial, sums: &[u32], modified: &mut [u32])
    requires { length modified.old + degree_of product.now ≤ length sums.now }
    ensures { (k : ℕ) → k < length modified.new
        → slice_index modified.new k
        ≡ act (F.Field.meaning field.now).arithmetic (coefficients_of product.now)
        (number_at sums.now) k }
{
    for (k, modified_sum) in modified.iter_mut().enumerate() {
        *modified_sum = apply(field, product, &sums[k..]);
    }
}

// The sum of coefficient i × sum i, over all coefficients. It adds from the highest down, as its
// definition does for every field; the sum of `minimal_pairs` adds from the lowest up.
fn apply<F: Field>(field: &F, product: &Polynomial, sums: &[u32]) -> u32
    requires { degree_of product.now < length sums.now }
    ensures { result
        ≡ act (F.Field.meaning field.now).arithmetic (coefficients_of product.now)
        (number_at sums.now) 0 }
{
    let coefficients = product.coefficients();
    let front = &sums[..coefficients.len()];
    let mut total = 0;
    for (coefficient, sum) in coefficients.iter().rev().zip(front.iter().rev()) {
        total = field.add(field.mul(*coefficient, *sum), total);
    }
    total
}
