// Writes a card.
ghost use Rattle.codes.specs.Code.{code_of};
ghost use Rattle.tray_file.specs.body.CardBodies.{card_body};
ghost use Rattle.tray_file.specs.reader.RecordKinds.{kind_number};
ghost use Rattle.tray_file.specs.declared.reader.kind.Kind.TheVariants as kinds;
ghost use Rattle.tray_file.specs.writer.Writing.{RecordWritten};
ghost use Rattle.tray_file.specs.writer.ReadingBack.{CardComesBack, AcceptedIsMade};
ghost use Rattle.tray_file.specs.writer.Writers.{Writable, CardWritten};

use crate::reader::Kind;
use crate::writer::record_writing::{BodyNumbers, write_numbers};
use crate::writer::write_refusal::WriteRefusal;
use codes::{AnyCard, CodeRef};
use fields::{BinaryField, LetteredField, PrimeField};

/// Puts the record of a card at the front of a buffer, leaves the rest of the buffer, and answers
/// how many bytes the record has. Refused with 38 where the buffer is too small. It is then as it
/// was.
pub fn write_card(card: &AnyCard, buffer: &mut [u8]) -> Result<usize, WriteRefusal>
    ensures written { CardWritten card.now buffer.old buffer.new result }
    ensures back { CardComesBack card.now }
    ensures accepted { AcceptedIsMade }
{
    match card {
        AnyCard::Prime(card) => {
            let prime = card.field().prime();
            write_values(PrimeField::KIND, prime, card.code(), buffer)
        }
        AnyCard::Binary(card) => {
            let modulus = card.field().modulus();
            write_values(BinaryField::KIND, modulus, card.code(), buffer)
        }
    }
}

// A card's values, over a field of this kind, made from `origin`. The kind is a number, since each
// kind of field states its own.
fn write_values(
    kind: u32,
    origin: u32,
    code: CodeRef<'_>,
    buffer: &mut [u8],
) -> Result<usize, WriteRefusal>
    requires { Writable kind origin (code_of code) }
    ensures { RecordWritten (kind_number kinds.Card) (card_body kind origin (code_of code.entry))
        buffer.old buffer.new result }
{
    let cells = code.locators.len() as u32;
    let rows = code.rows as u32;
    let body = BodyNumbers {
        head: &[kind, origin, code.letters, cells, rows],
        first: code.locators,
        second: code.multipliers,
    };
    write_numbers(Kind::Card, body, buffer)
}
