// Why a file is refused, and where: the place counts its bytes from 0.
mod body_fault;
mod field_fault;
mod file_cause;
mod layer;
mod tag_cause;

ghost use Rattle.std.specs.Prelude.{◌≡◌};
ghost use Rattle.tray_file.specs.fault.Faults.{fault_number, fault_at, number_fault, body_fault, BodyPlaceFits};

use crate::number::NumberCause;
pub use body_fault::BodyFault;
pub use field_fault::FieldFault;
pub use file_cause::FileCause;
pub use layer::Layer;
pub use tag_cause::TagCause;

/// Why a file is refused, and where.
#[derive(Clone, Copy)]
pub struct Fault {
    /// Counts the file's bytes from 0: for 32 the bad number's first byte, for 37 zero, for all
    /// else the record's first byte.
    pub place: usize,
    /// The layer that refuses, with the cause.
    pub layer: Layer,
}

impl Fault {
    /// The fault's number.
    pub fn number(self) -> u32
        ensures { result ≡ fault_number self }
    {
        self.layer.number()
    }
}

// A fault of the file itself, at a record.
pub(crate) fn file_fault(place: usize, cause: FileCause) -> Fault
    ensures { result ≡ fault_at place cause }
{
    Fault {
        place,
        layer: Layer::File(cause),
    }
}

// A number that is not there: the file is cut off at the record, or the number is bad where it
// begins.
pub(crate) fn placed_number(record: usize, number: usize, cause: NumberCause) -> Fault
    ensures { result ≡ number_fault «record» number cause }
{
    match cause {
        NumberCause::CutOff => file_fault(record, FileCause::CutOff),
        NumberCause::BadNumber => file_fault(number, FileCause::BadNumber),
    }
}

// The fault of a body that begins at `body`, in a record that begins at `record`.
pub(crate) fn placed_body(record: usize, body: usize, fault: BodyFault) -> Fault
    requires { BodyPlaceFits body fault }
    ensures { result ≡ body_fault «record» body fault }
{
    match fault {
        BodyFault::BadNumber(offset) => file_fault(body + offset, FileCause::BadNumber),
        BodyFault::BadBody => file_fault(record, FileCause::BadBody),
        BodyFault::BadNote => file_fault(record, FileCause::BadNote),
        BodyFault::Field(cause) => Fault {
            place: record,
            layer: Layer::Field(cause),
        },
        BodyFault::Card(cause) => Fault {
            place: record,
            layer: Layer::Card(cause),
        },
        BodyFault::Tag(cause) => Fault {
            place: record,
            layer: Layer::Tag(cause),
        },
    }
}
