// The play of a tag: a worker picks the calls, and the journal keeps each with its answer.
ghost use Rattle.std.specs.Prelude.{◌≡◌, length, take};
ghost use Rattle.codes.specs.Cards.{card_arithmetic, card_code};
ghost use Rattle.tags.specs.tag.Tags.{tag_arithmetic, tag_code, tag_cells};
ghost use Rattle.tags.specs.runs.Calls.{after_call, call_of};
ghost use Rattle.tags.specs.runs.Plays.{Play};
ghost use Rattle.tags.specs.runs.Rooms.{lent_to};
ghost use Rattle.tags.specs.runs.Runs.{Answered, RunLaw};

use crate::runs::call::Call;
use crate::runs::ending::Ending;
use crate::runs::event::Event;
use crate::runs::worker::Worker;
use crate::tag::Tag;
use codes::Card;
use fields::LetteredField;

/// How a play ended. A play has all three, whichever way it ends.
#[derive(Clone, Copy, PartialEq, Eq, Debug)]
pub struct Played<'a> {
    /// How many events were played: they stand in the first places of the journal.
    pub events: usize,
    /// Which of the three ended the play.
    pub ending: Ending,
    /// What the reads left of the room: its last numbers, as they were.
    pub rest: &'a [u32],
}

/// Opens a tag of the card and lets the worker work it until it stops, the journal is full, or it
/// picks a read of more numbers than are left of the room. The journal's events are those of the
/// calls that the worker picked, in order; its other places are left as they were. Each read is
/// lent the next numbers of the room, as many as the worker picked, and its event shows what they
/// hold after it.
pub fn work_tag<'a, F: LetteredField, W: Worker<'a>>(
    card: &Card<F>,
    worker: &mut W,
    journal: &mut [Event<'a>],
    room: &'a mut [u32],
) -> Played<'a>
    ensures play { Play W.Worker.picks worker.old worker.new room.old
        journal.old journal.new result }
    ensures law { RunLaw (card_arithmetic card.now) (card_code card.now) room.old
        (take result.events journal.new) }
{
    let mut tag = Tag::open(card);
    let mut rest = room;
    for events in 0..journal.len() {
        let Some(call) = worker.pick(&journal[0..events]) else {
            return Played {
                events,
                ending: Ending::Stopped,
                rest,
            };
        };
        let count = call.lent();
        if count > rest.len() {
            return Played {
                events,
                ending: Ending::RoomUsed,
                rest,
            };
        }
        let (part, left) = rest.split_at_mut(count);
        journal[events] = make_call(&mut tag, call, part);
        rest = left;
    }
    Played {
        events: journal.len(),
        ending: Ending::JournalFull,
        rest,
    }
}

// Makes a call, which is lent this part of the room: the numbers that a read writes into.
fn make_call<'a, F: LetteredField>(
    tag: &mut Tag<'_, F>,
    call: Call<'a>,
    part: &'a mut [u32],
) -> Event<'a>
    requires { length part.old ≡ lent_to call }
    ensures same { call_of result ≡ call.entry }
    ensures answer { Answered (tag_arithmetic tag.old) (tag_code tag.old)
        (tag_cells tag.old) part.old result }
    ensures cells { tag_cells tag.new
        ≡ after_call (tag_code tag.old) (tag_cells tag.old) call.entry }
    ensures card { tag.new.card.now ≡ tag.old.card.now }
{
    match call {
        Call::Note { cell, letter } => Event::Note {
            cell,
            letter,
            answer: tag.note(cell, letter),
        },
        Call::Wipe { cell } => Event::Wipe {
            cell,
            answer: tag.wipe(cell),
        },
        Call::Line { text } => Event::Line {
            text,
            answer: tag.line(text),
        },
        Call::Read { .. } => {
            let answer = tag.read(part);
            Event::Read {
                answer,
                shown: part,
            }
        }
    }
}
