// The house cards: the codes that every store knows by number.
ghost use Rattle.std.specs.Prelude.{◌≡◌};
ghost use Rattle.codes.specs.house.HouseRows.{HouseRowFound, house_number, rule_first};

use fields::FieldKind;
use thiserror::Error;

/// How a row's locators are made.
#[derive(Clone, Copy)]
pub enum LocatorRule {
    /// This number and those that follow it.
    CountingFrom(u32),
}

impl LocatorRule {
    /// The locator of the first cell.
    pub fn first(self) -> u32
        ensures { result ≡ rule_first self }
    {
        match self {
            LocatorRule::CountingFrom(first) => first,
        }
    }
}

/// How a row's multipliers are made.
#[derive(Clone, Copy)]
pub enum MultiplierRule {
    /// All are 1.
    Ones,
    /// Each cell's multiplier is its locator.
    AsLocators,
}

/// The values that a house card is made from.
#[derive(Clone, Copy)]
pub struct HouseRow {
    /// The field's kind.
    pub kind: FieldKind,
    /// The number that the field is made from: its prime or its modulus.
    pub origin: u32,
    /// The alphabet size.
    pub letters: u32,
    /// How many cells the card has.
    pub cells: usize,
    /// How many rows the card has.
    pub rows: usize,
    /// How the locators are made.
    pub locators: LocatorRule,
    /// How the multipliers are made.
    pub multipliers: MultiplierRule,
}

/// House card 1, engraved: 64 cells over 256 letters, with 16 rows.
pub const ENGRAVED: HouseRow = HouseRow {
    kind: FieldKind::Binary,
    origin: 285,
    letters: 256,
    cells: 64,
    rows: 16,
    locators: LocatorRule::CountingFrom(0),
    multipliers: MultiplierRule::Ones,
};

/// House card 2, inked: 20 cells over 37 letters, with 8 rows.
pub const INKED: HouseRow = HouseRow {
    kind: FieldKind::Prime,
    origin: 37,
    letters: 37,
    cells: 20,
    rows: 8,
    locators: LocatorRule::CountingFrom(0),
    multipliers: MultiplierRule::Ones,
};

/// House card 3, punched: 63 cells over 2 letters, with 8 rows.
pub const PUNCHED: HouseRow = HouseRow {
    kind: FieldKind::Binary,
    origin: 67,
    letters: 2,
    cells: 63,
    rows: 8,
    locators: LocatorRule::CountingFrom(1),
    multipliers: MultiplierRule::AsLocators,
};

// The rows by number, from 1 on.
const HOUSE_ROWS: [HouseRow; 3] = [ENGRAVED, INKED, PUNCHED];

/// Why there is no row and no card.
#[derive(Clone, Copy, PartialEq, Eq, Debug, Error)]
pub enum HouseRefusal {
    /// The number is not 1, 2 or 3.
    #[error("no house card")]
    NoHouseCard = 18,
}

impl HouseRefusal {
    /// The refusal's number.
    pub fn number(self) -> u32
        ensures { result ≡ house_number self }
    {
        self as u32
    }
}

/// The row of the house card with this number. Refused with 18 unless the number is 1, 2 or 3.
pub fn house_row(number: u32) -> Result<HouseRow, HouseRefusal>
    ensures { HouseRowFound number result }
{
    number
        .checked_sub(1)
        .and_then(|place| HOUSE_ROWS.get(place as usize))
        .copied()
        .ok_or(HouseRefusal::NoHouseCard)
}
