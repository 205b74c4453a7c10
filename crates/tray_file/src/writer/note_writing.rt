// Writes a note.
ghost use Rattle.std.specs.Prelude.{OnOk};
ghost use Rattle.tray_file.specs.writer.ReadingBack.{NoteComesBack};
ghost use Rattle.tray_file.specs.writer.Writers.{NoteWritten};

use crate::body::is_plain;
use crate::reader::Kind;
use crate::writer::record_writing::write_bytes;
use crate::writer::write_refusal::WriteRefusal;

/// Puts the record of a note at the front of a buffer, leaves the rest of the buffer, and answers
/// how many bytes the record has. Refused with 36 where the note has more than 200 bytes or a byte
/// outside 32 to 126, then 38 where the buffer is too small. It is then as it was. Whether a note
/// is in turn is not asked.
pub fn write_note(note: &[u8], buffer: &mut [u8]) -> Result<usize, WriteRefusal>
    ensures written { NoteWritten note.now buffer.old buffer.new result }
    ensures back { OnOk result (NoteComesBack note.now) }
{
    if !is_plain(note) {
        return Err(WriteRefusal::BadNote);
    }
    write_bytes(Kind::Note, note, buffer)
}
