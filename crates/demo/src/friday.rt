// Friday, before a coin is lifted: the line that was found is noted, and the tag is read.
ghost use Rattle.std.specs.Prelude.{◌≡◌, length};
ghost use Rattle.std.specs.Str.{chars};
ghost use Rattle.tags.specs.runs.Calls.{call_of};
ghost use Rattle.tags.specs.declared.runs.call.Call.TheVariants.{Line as line_call, Read as read_call};
ghost use Rattle.tags.specs.declared.runs.event.Event.TheVariants.{Line as line_event};
ghost use Rattle.demo.specs.inked.InkedTag.{inked_cells};
ghost use Rattle.demo.specs.Found.{FoundOn, ReadShown};

use crate::found::{TagRead, Unread};
use crate::inked::CELLS;
use codes::inked_card;
use decoding::{Counts, ReadRefusal};
use tags::{Call, Event, LineRefusal, UNPLAYED, play_script};

// What an inked tag reads as on which this line was found.
pub fn read_found(line: &str) -> Result<TagRead, Unread>
    ensures { FoundOn (chars line.now) result }
{
    let card = inked_card();
    let calls = [Call::Line { text: line }, Call::Read { length: CELLS }];
    let mut room = [0; CELLS];
    let mut journal = [UNPLAYED, UNPLAYED];
    play_script(&card, &calls, &mut journal, &mut room);
    let noted = line_answer(journal[0]);
    let (answer, word) = read_answer(journal[1]);
    noted?;
    let counts = answer?;
    Ok(TagRead { counts, word })
}

// The answer of an event of a line.
fn line_answer(event: Event<'_>) -> Result<(), LineRefusal>
    ensures { (text : _) → call_of event.entry ≡ line_call text
        → event.entry ≡ line_event text result }
{
    match event {
        Event::Line { answer, .. } => answer,
        _ => Ok(()),
    }
}

// The answer of an event of a read, and the word that it showed.
fn read_answer(event: Event<'_>) -> (Result<Counts, ReadRefusal>, [u32; CELLS])
    ensures { call_of event.entry ≡ read_call inked_cells
        → ReadShown event.entry result.0 result.1 }
{
    match event {
        Event::Read { answer, shown } => (answer, word_of(shown)),
        _ => (Err(ReadRefusal::Lost), [0; CELLS]),
    }
}

// The numbers that a read showed, where there is one for each cell.
fn word_of(shown: &[u32]) -> [u32; CELLS]
    ensures { length shown.now ≡ inked_cells → result ≡ shown.now }
{
    let mut word = [0; CELLS];
    if shown.len() != CELLS {
        return word;
    }
    word.copy_from_slice(shown);
    word
}
