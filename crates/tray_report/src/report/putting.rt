// Puts bytes and numbers into a writer. Of one that fails it is known what it took, which std says
// of `write` alone.
ghost use Rattle.std.specs.Prelude.{◌≡◌, decimal};
ghost use Rattle.std.specs.Io.{WritesAtMost};
ghost use Rattle.std.specs.Io.KnownBytes.{WriteAppends};
ghost use Rattle.codes.specs.WordText.{word_text};
ghost use Rattle.tray_report.specs.Putting.{Puts, fields_text};

use itoa::Buffer;
use std::io::{self, ErrorKind, Write};

// A number with the bytes before it.
#[derive(Clone, Copy)]
pub(crate) struct Field<'a> {
    pub label: &'a [u8],
    pub number: usize,
}

pub(crate) fn put<W: Write>(out: &mut W, bytes: &[u8]) -> io::Result<()>
    ensures { Puts (W.contents out.old) (W.contents out.new) bytes.now result }
{
    let mut left = bytes;
    for _ in 0..u64::MAX {
        if left.is_empty() {
            return Ok(());
        }
        let taken = write_some(out, left)?;
        left = &left[taken..];
    }
    Err(ErrorKind::Other.into())
}

// One write. An interrupted one has taken nothing, and one that takes nothing has failed.
fn write_some<W: Write>(out: &mut W, bytes: &[u8]) -> io::Result<usize>
    ensures bound { WritesAtMost result bytes.now }
    ensures bytes { WriteAppends (W.contents out.old) (W.contents out.new) result bytes.now }
{
    match out.write(bytes) {
        Ok(0) => Err(ErrorKind::WriteZero.into()),
        Ok(taken) => Ok(taken),
        Err(error) => {
            if error.kind() == ErrorKind::Interrupted {
                Ok(0)
            } else {
                Err(error)
            }
        }
    }
}

// A number in decimal digits.
fn put_number<W: Write>(out: &mut W, number: usize) -> io::Result<()>
    ensures { Puts (W.contents out.old) (W.contents out.new) (decimal number) result }
{
    let mut digits = Buffer::new();
    put(out, digits.format(number).as_bytes())
}

pub(crate) fn put_fields<W: Write>(out: &mut W, fields: &[Field<'_>]) -> io::Result<()>
    ensures { Puts (W.contents out.old) (W.contents out.new) (fields_text fields.now) result }
{
    for field in fields {
        put(out, field.label)?;
        put_number(out, field.number)?;
    }
    Ok(())
}

// The letters of a word, each after a space.
pub(crate) fn put_letters<W: Write>(out: &mut W, letters: &[u32]) -> io::Result<()>
    ensures { Puts (W.contents out.old) (W.contents out.new) (word_text letters.now) result }
{
    for letter in letters {
        put(out, b" ")?;
        put_number(out, *letter as usize)?;
    }
    Ok(())
}
