// Reads a card from a record's body.
ghost use Rattle.std.specs.Prelude.{◌≡◌};
ghost use Rattle.fields.specs.Kinds.{prime_kind, binary_kind};
ghost use Rattle.tray_file.specs.body.CardBodies.{HeadStands, CardOver, CardRead};
ghost use Rattle.tray_file.specs.body.OneReading.{CardReadsBack, OneCardAnswer};

use crate::body::card_head::{ReadHead, read_head};
use crate::body::number_list::ListAt;
use crate::fault::BodyFault;
use codes::{AnyCard, Card, CardCause, CodeRef};
use fields::{BinaryField, LetteredField, NoSuchField, PrimeField};

/// Turns a card's body into the checked card. Refused with 32 or 35 where its five first numbers
/// are not there, then 10, 11 or 12 for the field, 13 for the shape, 14 for the alphabet, then 32
/// or 35 where two lists of n numbers and the body's end do not follow, then 15 for a locator, 16
/// for a multiplier.
pub fn read_card(body: &[u8]) -> Result<AnyCard, BodyFault>
    ensures read { CardRead body.now result }
    ensures back { CardReadsBack }
    ensures one { OneCardAnswer }
{
    let read = read_head(body)?;
    // Each kind of field states its own number, which the reader and the writer of cards read.
    match read.head.kind {
        PrimeField::KIND => prime_card(read, body),
        BinaryField::KIND => binary_card(read, body),
        _ => Err(NoSuchField.into()),
    }
}

// A function for each kind: one that had cards of both among its locals would clear room for both.
fn prime_card(read: ReadHead, body: &[u8]) -> Result<AnyCard, BodyFault>
    requires stands { HeadStands read body.now }
    requires kind { read.head.kind ≡ prime_kind }
    ensures { CardRead body.now result }
{
    let field = PrimeField::new(read.head.origin)?;
    Ok(AnyCard::Prime(card_over(field, read, body)?))
}

fn binary_card(read: ReadHead, body: &[u8]) -> Result<AnyCard, BodyFault>
    requires stands { HeadStands read body.now }
    requires kind { read.head.kind ≡ binary_kind }
    ensures { CardRead body.now result }
{
    let field = BinaryField::new(read.head.origin)?;
    Ok(AnyCard::Binary(card_over(field, read, body)?))
}

// The rest of the card, over the field that its head names.
fn card_over<F: LetteredField + Drop>(
    field: F,
    read: ReadHead,
    body: &[u8],
) -> Result<Card<F>, BodyFault>
    requires accepted { F.Field.accepted field }
    requires stands { HeadStands read body.now }
    ensures { CardOver (F.Field.meaning field) field read.head body.now result }
{
    let head = read.head;
    if !head.has_shape() {
        return Err(BodyFault::Card(CardCause::BadShape));
    }
    if !field.admits(head.letters) {
        return Err(BodyFault::Card(CardCause::NoAlphabet));
    }
    let lists = ListAt {
        body,
        start: read.end,
        count: head.cells,
    };
    let read = lists.read_two()?;
    let code = CodeRef {
        letters: head.letters,
        rows: head.rows,
        locators: read.locators.as_slice(),
        multipliers: read.multipliers.as_slice(),
    };
    Ok(Card::check(field, code)?)
}
