// Each refusal by its number.
ghost use Rattle.std.specs.Prelude.{IfOk, string_bytes};
ghost use Rattle.vectors.specs.Answers.{RefusalShown};

use crate::cases::refused;
use codes::{CardCause, HouseRefusal};
use decoding::{EncodeRefusal, ReadRefusal};
use fields::FieldCause;
use minimal_pairs::RealiseRefusal;
use std::alloc::Global;
use tags::{LineRefusal, NoteRefusal};
use tray_file::{FieldFault, FileCause, WriteRefusal};

// The refusal with this number, and its word. A number that several types have is shown by one of
// them; each type has a `number` of its own, so no list could hold them all.
pub fn refusal(heap: Global, number: u32) -> anyhow::Result<String>
    ensures { IfOk result (λ text. RefusalShown number (string_bytes text)) }
{
    match number {
        10 => refused(
            heap,
            FieldFault::NoSuchField.number(),
            FieldFault::NoSuchField,
        ),
        11 => refused(heap, FieldCause::NoPrime.number(), FieldCause::NoPrime),
        12 => refused(
            heap,
            FieldCause::BadModulus.number(),
            FieldCause::BadModulus,
        ),
        13 => refused(heap, CardCause::BadShape.number(), CardCause::BadShape),
        14 => refused(heap, CardCause::NoAlphabet.number(), CardCause::NoAlphabet),
        15 => refused(heap, CardCause::BadLocator.number(), CardCause::BadLocator),
        16 => refused(
            heap,
            CardCause::BadMultiplier.number(),
            CardCause::BadMultiplier,
        ),
        17 => refused(
            heap,
            RealiseRefusal::NoElement.number(),
            RealiseRefusal::NoElement,
        ),
        18 => refused(
            heap,
            HouseRefusal::NoHouseCard.number(),
            HouseRefusal::NoHouseCard,
        ),
        21 => refused(
            heap,
            NoteRefusal::NoSuchCell.number(),
            NoteRefusal::NoSuchCell,
        ),
        22 => refused(heap, NoteRefusal::NoLetter.number(), NoteRefusal::NoLetter),
        23 => refused(heap, ReadRefusal::TooBlank.number(), ReadRefusal::TooBlank),
        24 => refused(heap, ReadRefusal::Lost.number(), ReadRefusal::Lost),
        25 => refused(
            heap,
            ReadRefusal::WrongLength.number(),
            ReadRefusal::WrongLength,
        ),
        26 => refused(
            heap,
            EncodeRefusal::PartAlphabet.number(),
            EncodeRefusal::PartAlphabet,
        ),
        28 => refused(
            heap,
            LineRefusal::UnmarkedAlphabet.number(),
            LineRefusal::UnmarkedAlphabet,
        ),
        31 => refused(heap, FileCause::CutOff.number(), FileCause::CutOff),
        32 => refused(heap, FileCause::BadNumber.number(), FileCause::BadNumber),
        33 => refused(
            heap,
            FileCause::StrangeRecord.number(),
            FileCause::StrangeRecord,
        ),
        34 => refused(heap, FileCause::OutOfTurn.number(), FileCause::OutOfTurn),
        35 => refused(heap, FileCause::BadBody.number(), FileCause::BadBody),
        36 => refused(heap, FileCause::BadNote.number(), FileCause::BadNote),
        37 => refused(heap, FileCause::LongFile.number(), FileCause::LongFile),
        38 => refused(
            heap,
            WriteRefusal::TooSmall.number(),
            WriteRefusal::TooSmall,
        ),
        _ => Ok(format!(in heap; "no refusal has this number")?),
    }
}
