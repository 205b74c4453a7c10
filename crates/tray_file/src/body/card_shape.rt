// What the check of a cells record must know of its card.
ghost use Rattle.std.specs.Prelude.{◌≤◌};
ghost use Rattle.algebra.specs.Limits.{largest_cells};

#[derive(Clone, Copy)]
pub(crate) struct CardShape {
    pub cells: usize,
    pub letters: u32,
    ghost few: { cells ≤ largest_cells },
}
