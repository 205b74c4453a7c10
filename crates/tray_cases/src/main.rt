// Prints the lines of many tray files, each given in hexadecimal on a line of standard input, so
// that they can be compared with the results of code written apart.
#![tactic(auto)]

mod hexadecimal;

use hexadecimal::decode;
use std::io::{BufWriter, Write};
use tray_report::write_lines;

fn run(rt: &HostRuntime) -> anyhow::Result<()> {
    let heap = rt.alloc();
    let mut out = BufWriter::new(heap, rt.stdout())?;
    for line in rt.lines(heap) {
        let line = line?;
        let mut file = vec![in heap; 0; line.len() / 2]?;
        decode(line.as_str(), file.as_mut_slice());
        write_lines(&mut out, file.as_slice())?;
    }
    out.flush()?;
    Ok(())
}

fn main(rt: HostRuntime) -> anyhow::Result<()> {
    run(&rt)
}
