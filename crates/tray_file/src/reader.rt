// A reader over a file's bytes: its records, one after another.
mod header;
mod kind;
mod limits;
mod record;
mod record_reading;
mod turn;
mod whole_file;

ghost use Rattle.std.specs.Prelude.{◌≡◌, ◌≤◌, None, length};
ghost use Rattle.tray_file.specs.reader.FileLimits.{longest_file};

use crate::body::CellList;
use crate::fault::{Fault, FileCause, file_fault};
use crate::reader::record_reading::{part, read_record};
use crate::reader::turn::Turn;
use codes::{AnyCard, Cell};
pub use kind::{Kind, NoSuchKind};
pub use limits::LONGEST_FILE;
pub use record::Record;
use record::record_of;
pub use whole_file::check_file;

/// A reader over a file's bytes, which answers one record after another. The bytes may be any. It
/// keeps the last card that it read, and the cells of the last cells record.
#[derive(Drop)]
pub struct TrayReader<'a> {
    file: &'a [u8],
    // Where the next record begins, and what is in turn there.
    place: usize,
    turn: Turn,
    cells: CellList,
    // The fault that ended the reading.
    fault: Option<Fault>,
    // A file that is too long has its fault from the start.
    ghost short: { fault ≡ None → length file.now ≤ longest_file },
}

impl<'a> TrayReader<'a> {
    ghost use Rattle.tray_file.specs.reader.Readers.{Opened, Next, EveryRun, AnswersEnd, RecordReadsBack};
    ghost use Rattle.tray_file.specs.reader.Turns.{last_card, lent_card};
    ghost use Rattle.tray_file.specs.reader.Files.{OneFile};

    /// A reader at the file's first byte. A file of more than 60,000 bytes has its fault, 37, at
    /// once.
    pub fn new(file: &'a [u8]) -> TrayReader<'a>
        ensures { Opened file.entry result }
    {
        let too_long = file_fault(0, FileCause::LongFile);
        let fault = (file.len() > LONGEST_FILE).then_some(too_long);
        TrayReader {
            file,
            place: 0,
            turn: Turn::Start,
            cells: CellList::new(),
            fault,
        }
    }

    /// Where the next record begins, in the file's bytes from 0. A fault leaves it where it was.
    pub fn place(&self) -> usize
        ensures { result ≡ self.now.place }
    {
        self.place
    }

    /// The last card that was read, or nothing before the first.
    pub fn card(&self) -> Option<&AnyCard>
        ensures { lent_card result ≡ last_card self.now.turn }
    {
        self.turn.card()
    }

    /// The cells of the last cells record that was read, under the card that was then the last;
    /// none before the first.
    pub fn cells(&self) -> &[Cell]
        ensures { result.now ≡ self.now.cells.items }
    {
        self.cells.as_slice()
    }

    /// The next record, nothing at the file's end, or a fault, which is repeated ever after. No
    /// `Iterator`: a fault has no end, and the place is asked for between two records.
    pub fn next(&mut self) -> Option<Result<Record<'a>, Fault>>
        ensures step { Next self.old result self.new }
        ensures runs { EveryRun }
        ensures ends { AnswersEnd }
        ensures back { RecordReadsBack }
        ensures one { OneFile }
    {
        if let Some(fault) = self.fault {
            return Some(Err(fault));
        }
        if self.place >= self.file.len() {
            return None;
        }
        match read_record(self.file, self.place, &mut self.turn, &mut self.cells) {
            Ok(step) => {
                let body = part(self.file, step.body, step.end);
                self.place = step.end;
                Some(Ok(record_of(step.kind, body)))
            }
            Err(fault) => {
                self.fault = Some(fault);
                Some(Err(fault))
            }
        }
    }
}
