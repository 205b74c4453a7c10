// Erasing the cells whose locator is a root of the error locator.
ghost use Rattle.std.specs.Prelude.{◌≡◌, length};
ghost use Rattle.algebra.specs.Polynomial.{evaluate};
ghost use Rattle.codes.specs.Cards.{card_arithmetic, card_code};
ghost use Rattle.codes.specs.Sums.{syndromes};
ghost use Rattle.decoding.specs.reading.Erasing.{erased};

use codes::{Card, Cell, add_powers};
use fields::{Field, LetteredField};

// Cells and sums change turn by turn, so no struct can keep that they fit: each contract says it,
// as `long` and `summed`.

// Makes the cells blank whose locator is a root of the polynomial, and takes their letters' parts
// out of the sums.
pub(crate) fn erase_roots<F: LetteredField>(
    card: &Card<F>,
    polynomial: &[u32],
    cells: &mut [Cell],
    sums: &mut [u32],
)
    requires long { length cells.old ≡ length (card_code card.now).locators }
    requires summed { sums.old
        ≡ syndromes (card_arithmetic card.now) (card_code card.now) cells.old }
    ensures cells { cells.new
        ≡ erased (card_arithmetic card.now) polynomial.now (card_code card.now).locators cells.old }
    ensures sums { sums.new ≡ syndromes (card_arithmetic card.now) (card_code card.now) cells.new }
{
    let field = card.field();
    let code = card.code();
    // A zip on `iter_mut` tells a proof nothing of what is written, so the other lists are read at
    // the index.
    for (j, cell) in cells.iter_mut().enumerate() {
        if let Some(letter) = cell.letter {
            if value_at(field, polynomial, code.locators[j]) == 0 {
                let weighted = field.mul(letter, code.multipliers[j]);
                add_powers(field, field.sub(0, weighted), code.locators[j], sums);
                *cell = Cell::blank();
            }
        }
    }
}

// The value of a polynomial at a point, by Horner's rule.
fn value_at<F: Field>(field: &F, polynomial: &[u32], point: u32) -> u32
    ensures { result ≡ evaluate (F.Field.meaning field.now).arithmetic polynomial.now point }
{
    let mut value = 0;
    for coefficient in polynomial.iter().rev() {
        value = field.add(*coefficient, field.mul(point, value));
    }
    value
}
