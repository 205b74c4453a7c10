// A record, which holds the part of the file that is its body.
ghost use Rattle.std.specs.Prelude.{◌≡◌};
ghost use Rattle.tray_file.specs.reader.Entries.{entry, entry_of, part_of};

use crate::reader::kind::Kind;

/// A record, which holds the part of the file that is its body, without its kind and length.
#[derive(Clone, Copy)]
pub enum Record<'a> {
    /// A card: its values as numbers (`read_card`).
    Card(&'a [u8]),
    /// The cells of a tag under the last card: n numbers (`read_cells`).
    Cells(&'a [u8]),
    /// A note: plain bytes.
    Note(&'a [u8]),
}

pub(crate) fn record_of<'a>(kind: Kind, body: &'a [u8]) -> Record<'a>
    ensures entry { entry_of result ≡ entry kind body.now }
    ensures part { part_of result ≡ body.entry }
{
    match kind {
        Kind::Card => Record::Card(body),
        Kind::Cells => Record::Cells(body),
        Kind::Note => Record::Note(body),
    }
}
