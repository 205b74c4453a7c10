// The lines of a file, one record after another.
mod telling;

ghost use Rattle.std.specs.Prelude.{◌≡◌, ◌+◌, ◌≤◌};

use crate::file_lines::telling::{counted, tell_cells};
use crate::line::{EndLine, FaultLine, LostLine};
use crate::word_read::WordRead;
use tray_file::{Record, TrayReader};

/// What one record tells.
#[derive(Clone, Copy)]
pub enum Step {
    /// A card or a note tells nothing.
    Silent,
    /// A cells record that reads, and its place. The place counts bytes from 0.
    Read { place: usize, word: WordRead },
    /// One that does not.
    Lost(LostLine),
    /// The file's end.
    End(EndLine),
    /// The fault that ends the file.
    Fault(FaultLine),
}

/// A reader, and how many cells records read so far and how many did not.
#[derive(Drop)]
pub struct FileLines<'a> {
    reader: TrayReader<'a>,
    end: EndLine,
    // A record has a byte at least, so the counts fit.
    ghost few: { end.read + end.lost ≤ reader.place },
}

impl<'a> FileLines<'a> {
    ghost use Rattle.tray_report.specs.FileLines.{Fresh, Stepped};
    ghost use Rattle.tray_report.specs.FileText.{TellingLaws};

    /// At the file's first byte, with nothing read.
    pub fn new(file: &'a [u8]) -> FileLines<'a>
        ensures { Fresh file.entry result }
    {
        FileLines {
            reader: TrayReader::new(file),
            end: EndLine { read: 0, lost: 0 },
        }
    }

    /// Reads one record more, and tells what is to be said of it. After the end or a fault it tells
    /// the same again. What the steps tell from the file's first byte on, up to the end or the
    /// fault, is the text of the file, which has only one.
    #[tactic(auto, using(crate::proofs::OneText::telling_laws))]
    pub fn step(&mut self) -> Step
        ensures step { Stepped self.old result self.new }
        ensures laws { TellingLaws }
    {
        let place = self.reader.place();
        let Some(answer) = self.reader.next() else {
            return Step::End(self.end);
        };
        match answer {
            Err(fault) => Step::Fault(FaultLine { fault }),
            Ok(record) => match record {
                Record::Card(_) => Step::Silent,
                Record::Note(_) => Step::Silent,
                Record::Cells(_) => {
                    // Cells stand under a card, so there is one.
                    let card = self.reader.card().unwrap();
                    let step = tell_cells(place, card, self.reader.cells());
                    self.end = counted(self.end, &step);
                    step
                }
            },
        }
    }
}

impl Step {
    ghost use Rattle.tray_report.specs.FileLines.{goes_on};

    /// Whether the file has more to tell.
    pub fn goes_on(self) -> bool
        ensures { result ≡ goes_on self }
    {
        !matches!(self, Step::End(_) | Step::Fault(_))
    }
}
