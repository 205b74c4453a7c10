// Notes: plain bytes, not too many.
ghost use Rattle.std.specs.Prelude.{Decides};
ghost use Rattle.tray_file.specs.body.Notes.{PlainNote};

use crate::body::limits::LONGEST_NOTE;

pub(crate) fn is_plain(body: &[u8]) -> bool
    ensures { Decides result (PlainNote body.now) }
{
    body.len() <= LONGEST_NOTE && body.iter().all(|byte| 32 <= *byte && *byte <= 126)
}
