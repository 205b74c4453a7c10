// White space in a line, made single spaces.
ghost use Rattle.std.specs.Prelude.{◌≡◌, ◌++◌, true, IfOk, Decides, string_bytes, codes};
ghost use Rattle.std.specs.List.{before_first};
ghost use Rattle.std.specs.Str.{chars};
ghost use Rattle.vectors.specs.Parts.{space};
ghost use Rattle.vectors.specs.Spaced.{PlainSpaces, is_common, next, put_text, spaced_text};

use std::alloc::{AllocError, Global};

// What has stood before a character.
#[derive(Clone, Copy)]
pub(crate) struct Before {
    // The case is a line of marks, in which each character after the first ';' counts.
    pub marks: bool,
    pub counts: bool,
    // A space has stood, so the case's word is past.
    pub space: bool,
    // White space stood just before.
    pub gap: bool,
}

// Whether the line has single spaces and no other white space. A contract needs no more than that
// it has no other.
pub fn is_plain(line: &str) -> bool
    ensures { result ≡ true → PlainSpaces (chars line.now) }
{
    !line.contains("  ") && line.chars().all(|c| is_common(c))
}

fn is_common(c: char) -> bool
    ensures { result ≡ is_common c }
{
    c == ' ' || !c.is_whitespace()
}

// Whether the case's word is that of a line of marks.
pub fn is_of_marks(line: &str) -> bool
    ensures { Decides result (before_first space line.now ≡ codes "line") }
{
    let (word, _) = line.split_once(' ').unwrap_or((line, ""));
    word == "line"
}

// The line with a space in the place of white space after its first space, so that numbers may
// stand apart by any. Before the first space stands the case's word. Of marks each white space
// counts.
pub fn spaced(heap: Global, line: &str, marks: bool) -> Result<String, AllocError>
    ensures { IfOk result (λ text. string_bytes text ≡ spaced_text marks (chars line.now)) }
{
    let mut text = String::new(heap);
    let mut before = Before {
        marks,
        counts: false,
        space: false,
        gap: false,
    };
    for c in line.chars() {
        before.put(&mut text, c)?;
        before = before.next(c);
    }
    Ok(text)
}

impl Before {
    fn put(self, text: &mut String, c: char) -> Result<(), AllocError>
        ensures { IfOk result
            (λ done. string_bytes text.new ≡ string_bytes text.old ++ put_text self c) }
    {
        if !self.space || !c.is_whitespace() {
            return text.push(c);
        }
        if self.gap && !self.counts {
            return Ok(());
        }
        text.push(' ')
    }

    fn next(self, c: char) -> Before
        ensures { result ≡ next self c }
    {
        Before {
            marks: self.marks,
            counts: self.counts || (self.marks && c == ';'),
            space: self.space || c == ' ',
            gap: (self.space && c.is_whitespace()) || c == ' ',
        }
    }
}
