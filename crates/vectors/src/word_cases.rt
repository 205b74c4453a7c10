// Every case of each type of refusal that has more than one.
ghost use Rattle.std.specs.Prelude.{◌≡◌, [], ◌∷◌, map};
ghost use Rattle.tags.specs.marks.Lines.{line_number};
ghost use Rattle.tray_file.specs.fault.Layers.{body_fault_number};
ghost use Rattle.vectors.specs.EveryCase.{HoldsEvery};

use codes::CardCause;
use decoding::{EncodeRefusal, FillRefusal, ReadRefusal};
use fields::FieldCause;
use minimal_pairs::RealiseRefusal;
use tags::{LineRefusal, NoteRefusal};
use tray_file::{BodyFault, FieldFault, FileCause, TagCause, WriteRefusal};

pub fn field_causes() -> [FieldCause; 2]
    ensures { HoldsEvery result }
{
    [FieldCause::NoPrime, FieldCause::BadModulus]
}

pub fn realise_refusals() -> [RealiseRefusal; 2]
    ensures { HoldsEvery result }
{
    [RealiseRefusal::WrongLength, RealiseRefusal::NoElement]
}

pub fn card_causes() -> [CardCause; 4]
    ensures { HoldsEvery result }
{
    [
        CardCause::BadShape,
        CardCause::NoAlphabet,
        CardCause::BadLocator,
        CardCause::BadMultiplier,
    ]
}

pub fn fill_refusals() -> [FillRefusal; 2]
    ensures { HoldsEvery result }
{
    [FillRefusal::WrongLength, FillRefusal::TooBlank]
}

pub fn encode_refusals() -> [EncodeRefusal; 3]
    ensures { HoldsEvery result }
{
    [
        EncodeRefusal::PartAlphabet,
        EncodeRefusal::WrongLength,
        EncodeRefusal::NoLetter,
    ]
}

pub fn read_refusals() -> [ReadRefusal; 3]
    ensures { HoldsEvery result }
{
    [
        ReadRefusal::WrongLength,
        ReadRefusal::TooBlank,
        ReadRefusal::Lost,
    ]
}

pub fn note_refusals() -> [NoteRefusal; 2]
    ensures { HoldsEvery result }
{
    [NoteRefusal::NoSuchCell, NoteRefusal::NoLetter]
}

// The word of a bad mark is the same at every place.
pub fn line_refusals() -> [LineRefusal; 3]
    ensures { map line_number result ≡ 25 ∷ 28 ∷ 28 ∷ [] }
{
    [
        LineRefusal::WrongLength,
        LineRefusal::UnmarkedAlphabet,
        LineRefusal::BadMark { place: 0 },
    ]
}

pub fn field_faults() -> [FieldFault; 3]
    ensures { HoldsEvery result }
{
    [
        FieldFault::NoSuchField,
        FieldFault::Made(FieldCause::NoPrime),
        FieldFault::Made(FieldCause::BadModulus),
    ]
}

pub fn file_causes() -> [FileCause; 7]
    ensures { HoldsEvery result }
{
    [
        FileCause::CutOff,
        FileCause::BadNumber,
        FileCause::StrangeRecord,
        FileCause::OutOfTurn,
        FileCause::BadBody,
        FileCause::BadNote,
        FileCause::LongFile,
    ]
}

// The word of a bad number is the same wherever it begins.
pub fn body_faults() -> [BodyFault; 11]
    ensures { map body_fault_number result
        ≡ 32 ∷ 35 ∷ 36 ∷ 10 ∷ 11 ∷ 12 ∷ 13 ∷ 14 ∷ 15 ∷ 16 ∷ 22 ∷ [] }
{
    [
        BodyFault::BadNumber(0),
        BodyFault::BadBody,
        BodyFault::BadNote,
        BodyFault::Field(FieldFault::NoSuchField),
        BodyFault::Field(FieldFault::Made(FieldCause::NoPrime)),
        BodyFault::Field(FieldFault::Made(FieldCause::BadModulus)),
        BodyFault::Card(CardCause::BadShape),
        BodyFault::Card(CardCause::NoAlphabet),
        BodyFault::Card(CardCause::BadLocator),
        BodyFault::Card(CardCause::BadMultiplier),
        BodyFault::Tag(TagCause::NoLetter),
    ]
}

pub fn write_refusals() -> [WriteRefusal; 4]
    ensures { HoldsEvery result }
{
    [
        WriteRefusal::NoLetter,
        WriteRefusal::WrongLength,
        WriteRefusal::BadNote,
        WriteRefusal::TooSmall,
    ]
}
