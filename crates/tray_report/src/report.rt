// Writes the lines of a whole file.
mod line_writing;
mod putting;

ghost use Rattle.tray_report.specs.Putting.{LinesWritten};
ghost use Rattle.tray_report.specs.FileText.{OneText};

use crate::file_lines::FileLines;
use std::io::{self, Write};

/// Writes the text of the file, which has only one: the line of each of its records, up to its end
/// or the fault that ends it. An error is one of a write; the writer then took a beginning of the
/// text.
pub fn write_lines<W: Write>(out: &mut W, file: &[u8]) -> io::Result<()>
    ensures text { LinesWritten (W.contents out.old) (W.contents out.new) file.now result }
    ensures one { OneText }
{
    let mut lines = FileLines::new(file);
    loop {
        let step = lines.step();
        step.write_line(out)?;
        if !step.goes_on() {
            return Ok(());
        }
    }
}
