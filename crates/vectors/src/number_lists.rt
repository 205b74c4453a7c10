// Numbers and cells, read from a case and shown in its answer.
ghost use Rattle.std.specs.Prelude.{◌≡◌, IfOk};
ghost use Rattle.vectors.specs.Degrees.{UpToDegree};
ghost use Rattle.vectors.specs.Parts.{numbers_in, cells_in};

use codes::{Cell, Word};
use std::alloc::Global;

pub fn read_numbers(heap: Global, text: &str) -> anyhow::Result<Vec<u32>>
    ensures { IfOk result (λ numbers. numbers.items ≡ numbers_in text.now) }
{
    let mut numbers = Vec::new(heap);
    // Of the words that `split_whitespace` gives, a proof knows only that they occur in the text.
    for word in text.split(' ') {
        if !word.is_empty() {
            numbers.push(word.parse::<u32>()?)?;
        }
    }
    Ok(numbers)
}

// A blank is written '?'.
pub fn read_cells(heap: Global, text: &str) -> anyhow::Result<Vec<Cell>>
    ensures { IfOk result (λ cells. cells.items ≡ cells_in text.now) }
{
    let mut cells = Vec::new(heap);
    for word in text.split(' ') {
        if word == "?" {
            cells.push(Cell::blank())?;
        } else if !word.is_empty() {
            cells.push(Cell::noted(word.parse::<u32>()?))?;
        }
    }
    Ok(cells)
}

// The coefficients up to the degree, the constant term first; one 0 for the polynomial 0.
pub fn up_to_degree(coefficients: &[u32]) -> Word<'_>
    ensures { UpToDegree coefficients.now result.letters.now }
{
    let degree = coefficients.iter().rposition(|x| *x != 0).unwrap_or(0);
    Word {
        letters: coefficients.get(0..=degree).unwrap_or(&[]),
    }
}
