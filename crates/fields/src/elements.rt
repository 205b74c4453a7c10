// Elements and letters: the numbers below a size.
ghost use Rattle.std.specs.Prelude.{Decides};
ghost use Rattle.fields.specs.Elements.{AllBelow};

/// Are all numbers below the size? The size is that of a field where the question is for elements,
/// and that of an alphabet where it is for letters.
pub fn all_below(numbers: &[u32], size: u32) -> bool
    ensures { Decides result (AllBelow size numbers.now) }
{
    numbers.iter().all(|x| *x < size)
}
