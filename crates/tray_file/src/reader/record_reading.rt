// Reads one record in its turn.
ghost use Rattle.std.specs.Prelude.{◌≡◌, ◌≤◌, length};
ghost use Rattle.std.specs.List.{between};
ghost use Rattle.tray_file.specs.reader.Entries.{VeryPart};
ghost use Rattle.tray_file.specs.reader.Records.{RecordRead};
ghost use Rattle.tray_file.specs.reader.Tasks.{NextCard, NoteChecked};

use crate::body::{CellList, is_plain, list_cells, read_card};
use crate::fault::{BodyFault, Fault, placed_body};
use crate::reader::header::read_header;
use crate::reader::kind::Kind;
use crate::reader::turn::{Allowed, Task, Turn};

// A record's kind, and the places of its body's first byte and after its last.
#[derive(Clone, Copy)]
pub(crate) struct Step {
    pub kind: Kind,
    pub body: usize,
    pub end: usize,
}

// A card that was read is put into `turn`, in place of the one before, and the cells of a cells
// record into `cells`. A function with a card among its locals clears room for it at each call, so
// a card is read in one of its own.
pub(crate) fn read_record(
    file: &[u8],
    place: usize,
    turn: &mut Turn,
    cells: &mut CellList,
) -> Result<Step, Fault>
    ensures { RecordRead turn.old turn.new place file.now cells.old.items cells.new.items result }
{
    let header = read_header(file, place, turn)?;
    let kind = header.kind;
    let start = header.body;
    let end = header.end;
    let body = part(file, start, end);
    let read = match header.task {
        Task::Card => read_next_card(body, turn),
        Task::Cells(card) => list_cells(card, body, cells),
        Task::Note => check_note(body),
    };
    // A closure for `map_err` would need the clauses of `placed_body` written out once more.
    match read {
        Ok(()) => {
            turn.pass(kind);
            Ok(Step {
                kind,
                body: start,
                end,
            })
        }
        Err(fault) => Err(placed_body(place, start, fault)),
    }
}

// The bytes from `start` on, up to `end`.
pub(crate) fn part(file: &[u8], start: usize, end: usize) -> &[u8]
    requires order { start ≤ end }
    requires within { end ≤ length file.now }
    ensures bytes { result.now ≡ between start end file.now }
    ensures very { VeryPart file.entry result start }
{
    &file[start..end]
}

// A body that is refused leaves the card before.
fn read_next_card(body: &[u8], turn: &mut Turn) -> Result<(), BodyFault>
    ensures { NextCard body.now turn.old turn.new result }
{
    *turn = Turn::After(read_card(body)?, Allowed::EveryKind);
    Ok(())
}

fn check_note(body: &[u8]) -> Result<(), BodyFault>
    ensures { NoteChecked body.now result }
{
    if is_plain(body) {
        Ok(())
    } else {
        Err(BodyFault::BadNote)
    }
}
