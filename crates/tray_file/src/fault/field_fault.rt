// Why a field is refused: no kind has the number, or the kind's maker refuses.
ghost use Rattle.std.specs.Prelude.{◌≡◌};
ghost use Rattle.tray_file.specs.fault.Layers.{field_fault_number};

use fields::FieldCause;
use thiserror::Error;

/// Why a card's field is refused.
#[derive(Clone, Copy, PartialEq, Eq, Debug, Error)]
pub enum FieldFault {
    /// No kind of field has the card's kind number.
    #[error("no such field")]
    NoSuchField,
    /// The kind makes no field from the number that it is given.
    #[error(transparent)]
    Made(FieldCause),
}

// A case holds another cause, so the numbers cannot stand at the cases.
impl FieldFault {
    /// The fault's number: 10, or that of the cause.
    pub fn number(self) -> u32
        ensures { result ≡ field_fault_number self }
    {
        match self {
            FieldFault::NoSuchField => 10,
            FieldFault::Made(cause) => cause.number(),
        }
    }
}
