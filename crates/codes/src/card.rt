// A code card: a field, and the values of a code over it. Its check makes it.
ghost use Rattle.std.specs.Prelude.{◌≡◌, length, Decides};
ghost use Rattle.codes.specs.Code.{code_with, code_of};
ghost use Rattle.codes.specs.Checked.{Checked, Sizes, Shape, LocatorsFit, MultipliersFit};
ghost use Rattle.codes.specs.CheckedOnce.{checked_prop};

use crate::card_cause::CardCause;
use crate::code::CodeRef;
use crate::over::CodeOver;
use algebra::{LARGEST_CELLS, LARGEST_ROWS};
use arrayvec::ArrayVec;
use fields::{Field, LetteredField};

/// A checked card: an accepted field, and the values of a code over it that break no rule of a
/// card. It has n cells and r rows. `Card::check` makes it.
#[derive(Drop)]
pub struct Card<F: LetteredField> {
    field: F,
    letters: u32,
    rows: usize,
    locators: ArrayVec<u32, LARGEST_CELLS>,
    multipliers: ArrayVec<u32, LARGEST_CELLS>,
    ghost checked: { Checked (F.Field.meaning field)
        (code_with letters rows locators.items multipliers.items) } by { checked_prop
            (F.Field.meaning field) (code_with letters rows locators.items multipliers.items) },
}

impl<F: LetteredField + Drop> Card<F> {
    ghost use Rattle.codes.specs.Cards.{CardMade};

    /// The card with these values, or the first rule that they break. That the field is accepted is
    /// asked for here and is no law of the trait: a field type may have values that no maker
    /// checked. Refused with 13 where the sizes do not fit or the lists differ in length, then 14
    /// where the field does not admit the alphabet size, then 15 where a locator is no element or
    /// stands twice, then 16 where a multiplier is 0 or no element.
    pub fn check(field: F, code: CodeRef<'_>) -> Result<Card<F>, CardCause>
        requires { F.Field.accepted field }
        ensures { CardMade (F.Field.meaning field) field (code_of code.entry) result }
    {
        if !has_shape(code) {
            return Err(CardCause::BadShape);
        }
        if !field.admits(code.letters) {
            return Err(CardCause::NoAlphabet);
        }
        if !distinct_elements(&field, code.locators) {
            return Err(CardCause::BadLocator);
        }
        if !nonzero_elements(&field, code.multipliers) {
            return Err(CardCause::BadMultiplier);
        }
        Ok(Card {
            field,
            letters: code.letters,
            rows: code.rows,
            locators: ArrayVec::try_from(code.locators).unwrap(),
            multipliers: ArrayVec::try_from(code.multipliers).unwrap(),
        })
    }
}

impl<F: LetteredField> Card<F> {
    ghost use Rattle.codes.specs.Cards.{card_code};

    /// The card's field.
    pub fn field(&self) -> &F
        ensures { result.now ≡ self.now.field }
    {
        &self.field
    }

    /// How many cells the card has: one for each locator.
    pub fn cells(&self) -> usize
        ensures { result ≡ length (card_code self.now).locators }
    {
        self.locators.len()
    }

    /// The card's code over its field.
    pub fn over(&self) -> CodeOver<'_, F>
        ensures field { result.field.now ≡ self.now.field }
        ensures values { code_of result.code ≡ card_code self.now }
    {
        CodeOver {
            field: self.field(),
            code: self.code(),
        }
    }

    /// The card's plain values, lent.
    pub fn code(&self) -> CodeRef<'_>
        ensures { code_of result ≡ card_code self.now }
    {
        CodeRef {
            letters: self.letters,
            rows: self.rows,
            locators: self.locators.as_slice(),
            multipliers: self.multipliers.as_slice(),
        }
    }
}

/// May a card have so many cells and rows? Yes for 2 to 256 cells and 1 to 64 rows, if there are
/// fewer rows than cells.
pub fn sizes_fit(cells: usize, rows: usize) -> bool
    ensures { Decides result (Sizes cells rows) }
{
    2 <= cells && cells <= LARGEST_CELLS && 1 <= rows && rows <= LARGEST_ROWS && rows < cells
}

fn has_shape(code: CodeRef<'_>) -> bool
    ensures { Decides result (Shape (code_of code.entry)) }
{
    let cells = code.locators.len();
    sizes_fit(cells, code.rows) && code.multipliers.len() == cells
}

fn distinct_elements<F: Field>(field: &F, locators: &[u32]) -> bool
    ensures { Decides result (LocatorsFit (F.Field.meaning field.now) locators.now) }
{
    let size = field.size();
    // No `all`: each turn looks at the places before its own.
    for (j, locator) in locators.iter().enumerate() {
        if *locator >= size {
            return false;
        }
        if locators[0..j].contains(locator) {
            return false;
        }
    }
    true
}

fn nonzero_elements<F: Field>(field: &F, multipliers: &[u32]) -> bool
    ensures { Decides result (MultipliersFit (F.Field.meaning field.now) multipliers.now) }
{
    let size = field.size();
    multipliers.iter().all(|x| *x != 0 && *x < size)
}
