// Reads a tray file from standard input, and prints what its cells records read as.
#![tactic(auto)]

use std::io::{BufWriter, Read, Write};
use tray_file::LONGEST_FILE;
use tray_report::write_lines;

// One byte more than a file may have tells that it is too long.
fn run(rt: &HostRuntime) -> anyhow::Result<()> {
    let heap = rt.alloc();
    let mut file = Vec::new(heap);
    rt.stdin()
        .take(LONGEST_FILE as u64 + 1)
        .read_to_end(&mut file)?;
    let mut out = BufWriter::new(heap, rt.stdout())?;
    write_lines(&mut out, file.as_slice())?;
    out.flush()?;
    Ok(())
}

fn main(rt: HostRuntime) -> anyhow::Result<()> {
    run(&rt)
}
