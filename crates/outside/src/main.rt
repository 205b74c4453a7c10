// Tags over a field that the library does not make, the field of four elements: cards, encoding,
// reading and runs, by the library's public calls as they stand.
#![tactic(auto)]

mod cards;
mod encode;
mod four_field;
mod play;
mod show;

use encode::encode_pair;
use kimzhadyr::card::Word;
use kimzhadyr::tag::{Call, UNPLAYED};
use play::play_calls;
use show::EventLine;
use std::alloc::Global;
use std::io::{BufWriter, Write};

// Plays the calls on a tag with so many letters, in a room that has numbers for all of them, and
// tells the journal.
fn tell_run<W: Write>(
    heap: Global,
    out: &mut W,
    letters: u32,
    calls: &[Call<'static>],
) -> anyhow::Result<()> {
    writeln!(out, "with {letters} letters:")?;
    let numbers = calls
        .iter()
        .fold(0, |sum: usize, call| sum.saturating_add(call.lent()));
    let mut room = vec![in heap; 0; numbers]?;
    let mut journal = vec![in heap; UNPLAYED; calls.len()]?;
    match play_calls(letters, calls, journal.as_mut_slice(), room.as_mut_slice()) {
        Ok(_) => {
            for event in &journal {
                let line = EventLine { event: *event };
                writeln!(out, "{line}")?;
            }
        }
        Err(cause) => {
            let number = cause.number();
            writeln!(out, "  no card: {number} {cause}")?;
        }
    }
    Ok(())
}

fn run(rt: &HostRuntime) -> anyhow::Result<()> {
    let heap = rt.alloc();
    let mut out = BufWriter::new(heap, rt.stdout())?;
    match encode_pair(&[1, 2]) {
        Ok(word) => {
            let word = Word { letters: &word };
            writeln!(out, "encoded:{word}")?;
        }
        Err(refusal) => {
            let number = refusal.number();
            writeln!(out, "not encoded: {number} {refusal}")?;
        }
    }
    tell_run(
        heap,
        &mut out,
        4,
        &[
            Call::Line { text: "1213" },
            Call::Read { length: 4 },
            Call::Wipe { cell: 3 },
            Call::Read { length: 4 },
            Call::Wipe { cell: 1 },
            Call::Note { cell: 3, letter: 0 },
            Call::Wipe { cell: 2 },
            Call::Read { length: 4 },
            Call::Wipe { cell: 4 },
            Call::Read { length: 4 },
            Call::Note { cell: 4, letter: 4 },
            Call::Read { length: 5 },
        ],
    )?;
    tell_run(
        heap,
        &mut out,
        2,
        &[
            Call::Line { text: "1101" },
            Call::Read { length: 4 },
            Call::Line { text: "1201" },
            Call::Note { cell: 5, letter: 1 },
            Call::Note { cell: 2, letter: 0 },
            Call::Read { length: 4 },
            Call::Wipe { cell: 2 },
            Call::Wipe { cell: 3 },
            Call::Read { length: 4 },
        ],
    )?;
    tell_run(heap, &mut out, 3, &[Call::Read { length: 4 }])?;
    out.flush()?;
    Ok(())
}

fn main(rt: HostRuntime) -> anyhow::Result<()> {
    run(&rt)
}
