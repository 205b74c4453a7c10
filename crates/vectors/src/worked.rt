// Worked examples, whose results are proved. Each stands as it is printed elsewhere: one function
// for both would take all of an example as its arguments.
ghost use Rattle.std.specs.Prelude.{◌≡◌, [], ◌∷◌};
ghost use Rattle.fields.specs.Modulo.{modulo};
ghost use Rattle.codes.specs.Sums.{syndromes};
ghost use Rattle.vectors.specs.WorkedSums.{six_code, six_cells, book_code, book_cells};

use codes::{Cell, CodeOver, CodeRef};
use fields::PrimeField;

// The sums of 1 5 3 4 0 6 modulo 7, with the locators 0 to 5 and multipliers 1.
pub fn sums_of_six() -> [u32; 4]
    ensures sums { result ≡ syndromes (modulo 7) six_code six_cells }
    ensures value { syndromes (modulo 7) six_code six_cells ≡ 5 ∷ 4 ∷ 0 ∷ 5 ∷ [] }
{
    let field = PrimeField::new(7).unwrap();
    let cells = [
        Cell { letter: Some(1) },
        Cell { letter: Some(5) },
        Cell { letter: Some(3) },
        Cell { letter: Some(4) },
        Cell { letter: Some(0) },
        Cell { letter: Some(6) },
    ];
    let code = CodeRef {
        letters: 7,
        rows: 4,
        locators: &[0, 1, 2, 3, 4, 5],
        multipliers: &[1, 1, 1, 1, 1, 1],
    };
    let mut buffer = [0; 4];
    let over = CodeOver {
        field: &field,
        code,
    };
    over.sums(&cells, &mut buffer).unwrap();
    buffer
}

// The sum of the digits of the book number 0-306-40615-2 modulo 11, weighted 10 down to 1.
pub fn sum_of_book_number() -> [u32; 1]
    ensures sums { result ≡ syndromes (modulo 11) book_code book_cells }
    ensures value { syndromes (modulo 11) book_code book_cells ≡ 0 ∷ [] }
{
    let field = PrimeField::new(11).unwrap();
    let cells = [
        Cell { letter: Some(0) },
        Cell { letter: Some(3) },
        Cell { letter: Some(0) },
        Cell { letter: Some(6) },
        Cell { letter: Some(4) },
        Cell { letter: Some(0) },
        Cell { letter: Some(6) },
        Cell { letter: Some(1) },
        Cell { letter: Some(5) },
        Cell { letter: Some(2) },
    ];
    let code = CodeRef {
        letters: 11,
        rows: 1,
        locators: &[0, 1, 2, 3, 4, 5, 6, 7, 8, 9],
        multipliers: &[10, 9, 8, 7, 6, 5, 4, 3, 2, 1],
    };
    let mut buffer = [0];
    let over = CodeOver {
        field: &field,
        code,
    };
    over.sums(&cells, &mut buffer).unwrap();
    buffer
}
