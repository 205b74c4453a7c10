// Times readings of the engraved card. Without an argument it tells what it measures; with the
// argument `run` it measures.
#![tactic(auto)]

mod damage;
mod engraved;

use anyhow::anyhow;
use codes::engraved_card;
use damage::DAMAGES;
use engraved::{note_damaged, reads, some_word};
use std::env;
use std::io::{BufWriter, Write};
use std::time::Instant;
use tags::Tag;

const READINGS: u32 = 20_000;

fn run(rt: &HostRuntime) -> anyhow::Result<()> {
    let measure = env::args(rt)?.any(|argument| argument.as_str() == "run");
    let card = engraved_card();
    let mut out = BufWriter::new(rt.alloc(), rt.stdout())?;
    writeln!(
        out,
        "readings of engraved tags: 64 cells, 16 rows, 256 letters"
    )?;
    let Ok(word) = some_word(&card) else {
        return Err(anyhow!("the engraved card encodes every data"));
    };
    for damage in DAMAGES {
        let mut tag = Tag::open(&card);
        note_damaged(&mut tag, &word, damage);
        let mut right = reads(&tag, &word, damage);
        if measure {
            let start = Instant::now(rt)?;
            for _ in 0..READINGS {
                right = reads(&tag, &word, damage) && right;
            }
            let nanoseconds = start.elapsed(rt)?.as_nanos() / READINGS as u128;
            writeln!(out, "{damage}: {nanoseconds} ns a tag")?;
        } else {
            writeln!(out, "{damage}")?;
        }
        if !right {
            return Err(anyhow!("a tag was read wrong"));
        }
    }
    out.flush()?;
    Ok(())
}

fn main(rt: HostRuntime) -> anyhow::Result<()> {
    run(&rt)
}
