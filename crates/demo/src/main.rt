// The week of one inked tag: on Monday its letters are encoded and inked, later ink bleeds and
// goes, and on Friday the tag is read.
#![tactic(auto)]

ghost use Rattle.std.specs.Prelude.{string_bytes};
ghost use Rattle.std.specs.Io.{StopsAt};

mod found;
mod friday;
mod inked;
mod marks;
mod saturday;

use crate::inked::{
    CELLS, ROWS, RefusedData, RefusedLine, ink, inspect_cells, inspect_line, noted_cells,
};
use codes::INKED;
use friday::read_found;
use marks::Marks;
use saturday::file_tag;
use std::io::{BufWriter, Write};
use tray_report::write_lines;

// One more line of the input, with the byte 10 that ends it, in place of what `input` held.
fn next_line(rt: &HostRuntime, input: &mut String) -> anyhow::Result<()>
    ensures { StopsAt (string_bytes input.new) 10 }
{
    input.clear();
    rt.read_line(input)?;
    Ok(())
}

fn run(rt: &HostRuntime) -> anyhow::Result<()> {
    let heap = rt.alloc();
    let mut out = BufWriter::new(heap, rt.stdout())?;
    let origin = INKED.origin;
    let letters = INKED.letters;
    writeln!(
        out,
        "card: inked, modulo {origin}, {letters} letters, {CELLS} cells, {ROWS} rows"
    )?;
    let mut input = String::new(heap);
    next_line(rt, &mut input)?;
    let line = input.as_str().trim_end();
    let word = ink(line).map_err(|refusal| RefusedData::new(refusal, line))?;
    let inked = inspect_cells(noted_cells(&word));
    let marks = Marks { word: &word };
    writeln!(out, "Monday, {line} is inked as {marks}:\n{inked}")?;
    next_line(rt, &mut input)?;
    let line = input.as_str().trim_end();
    let found = inspect_line(line).map_err(|refusal| RefusedLine::new(refusal, CELLS, line))?;
    writeln!(out, "later, {line} is found:\n{found}")?;
    writeln!(
        out,
        "Friday, before a coin is lifted, the line is noted and the tag is read:"
    )?;
    match read_found(line) {
        Ok(read) => writeln!(out, "{read}")?,
        Err(unread) => writeln!(out, "{unread}")?,
    }
    match file_tag(&found.cells) {
        Ok(file) => {
            let length = file.len();
            writeln!(
                out,
                "Saturday, card and cells go into a tray file of {length} bytes, and it reads:"
            )?;
            write_lines(&mut out, file.as_slice())?;
        }
        Err(refusal) => {
            let number = refusal.number();
            writeln!(out, "Saturday, the cells are not filed: {number} {refusal}")?;
        }
    }
    out.flush()?;
    Ok(())
}

fn main(rt: HostRuntime) -> anyhow::Result<()> {
    run(&rt)
}
