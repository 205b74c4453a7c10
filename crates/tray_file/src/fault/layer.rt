// Why a record is refused, by the layer that refuses it.
ghost use Rattle.std.specs.Prelude.{◌≡◌};
ghost use Rattle.tray_file.specs.fault.Layers.{layer_number};

use crate::fault::field_fault::FieldFault;
use crate::fault::file_cause::FileCause;
use crate::fault::tag_cause::TagCause;
use codes::CardCause;
use thiserror::Error;

/// Why a record is refused, by the layer that refuses it.
#[derive(Clone, Copy, PartialEq, Eq, Debug, Error)]
pub enum Layer {
    /// Numbers 10 to 12.
    #[error(transparent)]
    Field(FieldFault),
    /// Numbers 13 to 16.
    #[error(transparent)]
    Card(CardCause),
    /// Number 22.
    #[error(transparent)]
    Tag(TagCause),
    /// Numbers 31 to 37.
    #[error(transparent)]
    File(FileCause),
}

// Each case holds a cause, so the numbers cannot stand at the cases.
impl Layer {
    /// The number of the cause that the case holds.
    pub fn number(self) -> u32
        ensures { result ≡ layer_number self }
    {
        match self {
            Layer::Field(fault) => fault.number(),
            Layer::Card(cause) => cause.number(),
            Layer::Tag(cause) => cause.number(),
            Layer::File(cause) => cause.number(),
        }
    }
}
