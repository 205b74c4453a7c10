// What is told of cells, and the counts with it.
ghost use Rattle.std.specs.Prelude.{◌≡◌, ◌+◌, ◌<◌, ◌^◌};
ghost use Rattle.codes.specs.AnyCards.{any_code};
ghost use Rattle.tray_report.specs.WordReading.{CellsFit};
ghost use Rattle.tray_report.specs.FileLines.{CellsTold, counts_with};

use crate::file_lines::Step;
use crate::line::{EndLine, LostLine};
use crate::word_reading::read_word;
use codes::{AnyCard, Cell};

// What is told of the cells of a record under their card.
pub(crate) fn tell_cells(place: usize, card: &AnyCard, cells: &[Cell]) -> Step
    requires { CellsFit (any_code card.now) cells.now }
    ensures { CellsTold place card.now cells.now result }
{
    match read_word(card, cells) {
        Ok(word) => Step::Read { place, word },
        Err(refusal) => Step::Lost(LostLine { place, refusal }),
    }
}

// The counts with this step among them.
pub(crate) fn counted(end: EndLine, step: &Step) -> EndLine
    requires { end.read + end.lost + 1 < 2 ^ 64 }
    ensures { result ≡ counts_with end step.now }
{
    match step {
        Step::Read { .. } => EndLine {
            read: end.read + 1,
            ..end
        },
        Step::Lost(_) => EndLine {
            lost: end.lost + 1,
            ..end
        },
        _ => end,
    }
}
