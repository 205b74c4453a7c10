// Why a body is refused.
ghost use Rattle.std.specs.Prelude.{◌≡◌};
ghost use Rattle.tray_file.specs.fault.Layers.{body_fault_number};
ghost use Rattle.tray_file.specs.declared.fault.field_fault.FieldFault.TheVariants.{NoSuchField as no_such_field, Made as not_made};
ghost use Rattle.tray_file.specs.declared.fault.body_fault.BodyFault.TheVariants.{Field as field_fault, Card as card_fault};

use crate::fault::field_fault::FieldFault;
use crate::fault::tag_cause::TagCause;
use codes::CardCause;
use fields::{FieldCause, NoSuchField};
use thiserror::Error;

/// Why a record's body is refused.
#[derive(Clone, Copy, PartialEq, Eq, Debug, Error)]
pub enum BodyFault {
    /// A number is bad. It begins so many bytes after the body's first.
    #[error("bad number")]
    BadNumber(usize),
    /// The body is too short or too long.
    #[error("bad body")]
    BadBody,
    /// A note has more than 200 bytes, or a byte outside 32 to 126.
    #[error("bad note")]
    BadNote,
    /// A card's field is refused.
    #[error(transparent)]
    Field(FieldFault),
    /// The values of a card break a rule.
    #[error(transparent)]
    Card(CardCause),
    /// Cells are refused.
    #[error(transparent)]
    Tag(TagCause),
}

// Cases hold other causes, so the numbers cannot stand at the cases.
impl BodyFault {
    /// The fault's number: 32, 35, 36, or that of the cause which a case holds.
    pub fn number(self) -> u32
        ensures { result ≡ body_fault_number self }
    {
        match self {
            BodyFault::BadNumber(_) => 32,
            BodyFault::BadBody => 35,
            BodyFault::BadNote => 36,
            BodyFault::Field(fault) => fault.number(),
            BodyFault::Card(cause) => cause.number(),
            BodyFault::Tag(cause) => cause.number(),
        }
    }
}

// No field kind has the number that a card names.
impl From<NoSuchField> for BodyFault {
    ghost from_gives = { λ _ fault. fault ≡ field_fault no_such_field };

    fn from(_cause: NoSuchField) -> BodyFault {
        BodyFault::Field(FieldFault::NoSuchField)
    }
}

impl From<FieldCause> for BodyFault {
    ghost from_gives = { λ cause fault. fault ≡ field_fault (not_made cause) };

    fn from(cause: FieldCause) -> BodyFault {
        BodyFault::Field(FieldFault::Made(cause))
    }
}

impl From<CardCause> for BodyFault {
    ghost from_gives = { λ cause fault. fault ≡ card_fault cause };

    fn from(cause: CardCause) -> BodyFault {
        BodyFault::Card(cause)
    }
}
