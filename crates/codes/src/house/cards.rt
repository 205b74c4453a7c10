// The checked cards of the house rows.
ghost use Rattle.std.specs.Prelude.{◌≡◌, ◌+◌, ◌^◌, ◌<◌, ◌≤◌, length};
ghost use Rattle.std.specs.List.{range_with_len};
ghost use Rattle.algebra.specs.Limits.{largest_cells};
ghost use Rattle.codes.specs.Cards.{card_code};
ghost use Rattle.codes.specs.Checked.{Checked};
ghost use Rattle.codes.specs.house.HouseRows.{row_code, rule_multipliers, engraved, inked, punched};
ghost use Rattle.codes.specs.house.HouseCards.{PrimeCardOf, BinaryCardOf, HouseCardMade};

use crate::any_card::AnyCard;
use crate::card::Card;
use crate::code::CodeRef;
use crate::house::rows::{
    ENGRAVED, HouseRefusal, HouseRow, INKED, MultiplierRule, PUNCHED, house_row,
};
use algebra::LARGEST_CELLS;
use arrayvec::ArrayVec;
use fields::{BinaryField, FieldKind, LetteredField, PrimeField};

/// The checked card of the house card with this number. Refused with 18 unless the number is 1, 2
/// or 3.
pub fn house_card(number: u32) -> Result<AnyCard, HouseRefusal>
    ensures { HouseCardMade number result }
{
    let row = house_row(number)?;
    Ok(match row.kind {
        FieldKind::Prime => AnyCard::Prime(row_card(PrimeField::new(row.origin).unwrap(), row)),
        FieldKind::Binary => AnyCard::Binary(row_card(BinaryField::new(row.origin).unwrap(), row)),
    })
}

/// The checked card of house card 1, engraved.
pub fn engraved_card() -> Card<BinaryField>
    ensures { BinaryCardOf engraved result }
{
    row_card(BinaryField::new(ENGRAVED.origin).unwrap(), ENGRAVED)
}

/// The checked card of house card 2, inked.
pub fn inked_card() -> Card<PrimeField>
    ensures { PrimeCardOf inked result }
{
    row_card(PrimeField::new(INKED.origin).unwrap(), INKED)
}

/// The checked card of house card 3, punched.
pub fn punched_card() -> Card<BinaryField>
    ensures { BinaryCardOf punched result }
{
    row_card(BinaryField::new(PUNCHED.origin).unwrap(), PUNCHED)
}

// The card with the row's values. Over this field they break no rule, so the check grants it.
fn row_card<F: LetteredField + Drop>(field: F, row: HouseRow) -> Card<F>
    requires accepted { F.Field.accepted field }
    requires checked { Checked (F.Field.meaning field) (row_code row) }
    ensures field { result.field ≡ field }
    ensures values { card_code result ≡ row_code row }
{
    let locators = counting_from(row.locators.first(), row.cells);
    let multipliers = multipliers_by(row.multipliers, locators.as_slice());
    let code = CodeRef {
        letters: row.letters,
        rows: row.rows,
        locators: locators.as_slice(),
        multipliers: multipliers.as_slice(),
    };
    Card::check(field, code).unwrap()
}

// `first` and the numbers that follow it.
fn counting_from(first: u32, cells: usize) -> ArrayVec<u32, LARGEST_CELLS>
    requires few { cells ≤ largest_cells }
    requires small { first + cells ≤ 2 ^ 32 }
    ensures { result.items ≡ range_with_len first cells }
{
    let mut numbers = ArrayVec::new();
    for j in 0..cells as u32 {
        numbers.push(first + j);
    }
    numbers
}

// The multipliers of the cells with these locators.
fn multipliers_by(rule: MultiplierRule, locators: &[u32]) -> ArrayVec<u32, LARGEST_CELLS>
    requires { length locators.now ≤ largest_cells }
    ensures { result.items ≡ rule_multipliers rule (length locators.now) locators.now }
{
    match rule {
        MultiplierRule::Ones => ArrayVec::try_from(&[1; LARGEST_CELLS][..locators.len()]).unwrap(),
        MultiplierRule::AsLocators => ArrayVec::try_from(locators).unwrap(),
    }
}
