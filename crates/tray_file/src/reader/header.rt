// A record's kind and length, and where its body stands.
ghost use Rattle.std.specs.Prelude.{length, drop};
ghost use Rattle.tray_file.specs.reader.Headers.{NumberAt, HeaderRead};

use crate::fault::{Fault, FileCause, file_fault, placed_number};
use crate::number::{NumberRead, read_number};
use crate::reader::kind::Kind;
use crate::reader::turn::{Task, Turn, task_of};

#[derive(Clone, Copy)]
pub(crate) struct Header<'t> {
    pub kind: Kind,
    pub task: Task<'t>,
    // The places of the body's first byte and after its last.
    pub body: usize,
    pub end: usize,
}

// Checks go from left to right: the kind, whether it is in turn, the length, whether the body is
// there.
pub(crate) fn read_header<'t>(
    file: &[u8],
    place: usize,
    turn: &'t Turn,
) -> Result<Header<'t>, Fault>
    ensures { HeaderRead turn.now place (drop place file.now) result }
{
    let kind_read = number_at(file, place, place)?;
    let strange = file_fault(place, FileCause::StrangeRecord);
    let kind = Kind::try_from(kind_read.value).map_err(|_| strange)?;
    let out_of_turn = file_fault(place, FileCause::OutOfTurn);
    let task = task_of(turn, kind).ok_or(out_of_turn)?;
    let length = number_at(file, kind_read.end, place)?;
    let body = length.end;
    let size = length.value as usize;
    if file.len() - body < size {
        return Err(file_fault(place, FileCause::CutOff));
    }
    Ok(Header {
        kind,
        task,
        body,
        end: body + size,
    })
}

// A number of the record that begins at `record`.
fn number_at(file: &[u8], start: usize, record: usize) -> Result<NumberRead, Fault>
    ensures { NumberAt (drop start file.now) start «record» result }
{
    match read_number(file, start) {
        Ok(read) => Ok(read),
        Err(cause) => Err(placed_number(record, start, cause)),
    }
}
