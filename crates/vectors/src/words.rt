// The word of each refusal: every case of every type, with its number.
ghost use Rattle.std.specs.Prelude.{List, ℕ, OnOk};
ghost use Rattle.std.specs.Io.KnownBytes.{Appends};
ghost use Rattle.vectors.specs.WordLines.{word_line};

use crate::word_cases::{
    body_faults, card_causes, encode_refusals, field_causes, field_faults, file_causes,
    fill_refusals, line_refusals, note_refusals, read_refusals, realise_refusals, write_refusals,
};
use codes::{HouseRefusal, SumsRefusal};
use fields::NoSuchField;
use std::alloc::Global;
use std::fmt::Display;
use std::io::Write;
use tags::{MarkRefusal, WipeRefusal};
use tray_file::{CellsRefusal, FieldFault, FileCause, Layer, NoSuchKind, TagCause};

// A line for each case: the type, the number and the word.
pub(crate) fn write_words<W: Write>(heap: Global, out: &mut W) -> anyhow::Result<()> {
    write_words_of_fields(heap, out)?;
    write_words_of_codes(heap, out)?;
    write_words_of_decoding(heap, out)?;
    write_words_of_tags(heap, out)?;
    write_words_of_files(heap, out)
}

fn write_words_of_fields<W: Write>(heap: Global, out: &mut W) -> anyhow::Result<()> {
    // It has no number of its own: a file's fault gives it that of its case.
    let number = FieldFault::NoSuchField.number();
    write_word(heap, out, "NoSuchField", number, NoSuchField)?;
    for cause in field_causes() {
        write_word(heap, out, "FieldCause", cause.number(), cause)?;
    }
    for refusal in realise_refusals() {
        write_word(heap, out, "RealiseRefusal", refusal.number(), refusal)?;
    }
    Ok(())
}

fn write_words_of_codes<W: Write>(heap: Global, out: &mut W) -> anyhow::Result<()> {
    for cause in card_causes() {
        write_word(heap, out, "CardCause", cause.number(), cause)?;
    }
    let refusal = SumsRefusal::WrongLength;
    write_word(heap, out, "SumsRefusal", refusal.number(), refusal)?;
    let refusal = HouseRefusal::NoHouseCard;
    write_word(heap, out, "HouseRefusal", refusal.number(), refusal)
}

fn write_words_of_decoding<W: Write>(heap: Global, out: &mut W) -> anyhow::Result<()> {
    for refusal in fill_refusals() {
        write_word(heap, out, "FillRefusal", refusal.number(), refusal)?;
    }
    for refusal in encode_refusals() {
        write_word(heap, out, "EncodeRefusal", refusal.number(), refusal)?;
    }
    for refusal in read_refusals() {
        write_word(heap, out, "ReadRefusal", refusal.number(), refusal)?;
    }
    Ok(())
}

fn write_words_of_tags<W: Write>(heap: Global, out: &mut W) -> anyhow::Result<()> {
    let refusal = MarkRefusal::BadMark;
    write_word(heap, out, "MarkRefusal", refusal.number(), refusal)?;
    for refusal in line_refusals() {
        write_word(heap, out, "LineRefusal", refusal.number(), refusal)?;
    }
    for refusal in note_refusals() {
        write_word(heap, out, "NoteRefusal", refusal.number(), refusal)?;
    }
    let refusal = WipeRefusal::NoSuchCell;
    write_word(heap, out, "WipeRefusal", refusal.number(), refusal)
}

fn write_words_of_files<W: Write>(heap: Global, out: &mut W) -> anyhow::Result<()> {
    // It has no number of its own: a file's fault gives it that of its case.
    let number = FileCause::StrangeRecord.number();
    write_word(heap, out, "NoSuchKind", number, NoSuchKind)?;
    for fault in field_faults() {
        write_word(heap, out, "FieldFault", fault.number(), fault)?;
    }
    let cause = TagCause::NoLetter;
    write_word(heap, out, "TagCause", cause.number(), cause)?;
    for cause in file_causes() {
        write_word(heap, out, "FileCause", cause.number(), cause)?;
    }
    write_words_of_layers(heap, out)?;
    for fault in body_faults() {
        write_word(heap, out, "BodyFault", fault.number(), fault)?;
    }
    let refusal = CellsRefusal::WrongLength;
    write_word(heap, out, "CellsRefusal", refusal.number(), refusal)?;
    for fault in body_faults() {
        let refusal = CellsRefusal::Body(fault);
        write_word(heap, out, "CellsRefusal", refusal.number(), refusal)?;
    }
    for refusal in write_refusals() {
        write_word(heap, out, "WriteRefusal", refusal.number(), refusal)?;
    }
    Ok(())
}

fn write_words_of_layers<W: Write>(heap: Global, out: &mut W) -> anyhow::Result<()> {
    for fault in field_faults() {
        let layer = Layer::Field(fault);
        write_word(heap, out, "Layer", layer.number(), layer)?;
    }
    for cause in card_causes() {
        let layer = Layer::Card(cause);
        write_word(heap, out, "Layer", layer.number(), layer)?;
    }
    let layer = Layer::Tag(TagCause::NoLetter);
    write_word(heap, out, "Layer", layer.number(), layer)?;
    for cause in file_causes() {
        let layer = Layer::File(cause);
        write_word(heap, out, "Layer", layer.number(), layer)?;
    }
    Ok(())
}

// A line: the type, the number and the word.
fn write_word<W: Write>(
    heap: Global,
    out: &mut W,
    name: &str,
    number: u32,
    refusal: impl Display + Drop,
) -> anyhow::Result<()>
    ensures { OnOk result ((word : List ℕ)
        × Appends (W.contents out.old) (W.contents out.new) (word_line name.now number word)) }
{
    let word = refusal.to_string(heap)?;
    writeln!(out, "{name} {number} {word}")?;
    Ok(())
}
