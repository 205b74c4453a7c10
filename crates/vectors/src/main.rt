// Answers cases from standard input, one to a line, so that they can be compared with the results
// of code written apart.
#![tactic(auto)]

ghost use Rattle.std.specs.Prelude.{IfOk, string_bytes};
ghost use Rattle.vectors.specs.CaseAnswers.{LineAnswer};

mod cases;
mod code_case;
mod fold;
mod inverse;
mod number_lists;
mod parts;
mod refusals;
mod spaced;
mod word_cases;
mod words;
mod worked;

use cases::answer;
use spaced::{is_of_marks, is_plain, spaced};
use std::alloc::Global;
use std::io::{BufWriter, Write};
use words::write_words;
use worked::{sum_of_book_number, sums_of_six};

// The answer to a line, in which numbers may stand apart by any white space. A line that has single
// spaces alone is not copied.
fn answer_line(heap: Global, line: &str) -> anyhow::Result<String>
    ensures { IfOk result (λ text. LineAnswer line.now (string_bytes text)) }
{
    if is_plain(line) {
        return answer(heap, line);
    }
    let case = spaced(heap, line, is_of_marks(line))?;
    answer(heap, case.as_str())
}

fn run(rt: &HostRuntime) -> anyhow::Result<()> {
    let heap = rt.alloc();
    let mut out = BufWriter::new(heap, rt.stdout())?;
    let six = sums_of_six();
    let book = sum_of_book_number();
    writeln!(out, "proved: {six:?} {book:?}")?;
    for line in rt.lines(heap) {
        let line = line?;
        let text = answer_line(heap, line.as_str())?;
        writeln!(out, "{text}")?;
    }
    writeln!(out, "refusals, case by case:")?;
    write_words(heap, &mut out)?;
    out.flush()?;
    Ok(())
}

fn main(rt: HostRuntime) -> anyhow::Result<()> {
    run(&rt)
}
