// The play of a script.
ghost use Rattle.std.specs.Prelude.{◌≡◌, min, map, length, take, drop};
ghost use Rattle.codes.specs.Cards.{card_arithmetic, card_code};
ghost use Rattle.tags.specs.runs.Calls.{call_of};
ghost use Rattle.tags.specs.runs.Rooms.{used};
ghost use Rattle.tags.specs.runs.Runs.{RunLaw};
ghost use Rattle.tags.specs.runs.Scripts.{ScriptPicks, playable, script_ending};

use crate::runs::call::Call;
use crate::runs::event::Event;
use crate::runs::run::{Played, work_tag};
use crate::runs::script::Script;
use crate::runs::worker::Worker;
use codes::Card;
use fields::LetteredField;

// Makes the calls one after another, and stops after the last.
impl<'a, 'text: 'a, 'calls> Worker<'a> for Script<'text, 'calls> {
    ghost picks = { ScriptPicks };

    fn pick(&mut self, journal: &[Event<'a>]) -> Option<Call<'a>> {
        self.calls.get(journal.len()).copied()
    }
}

/// Works a freshly opened tag by these calls, as many as the room has numbers and the journal has
/// places for. The other places of the journal are left as they were, and so is the rest of the
/// room. The texts of the calls may live longer than the room.
pub fn play_script<'a, 'text: 'a, F: LetteredField>(
    card: &Card<F>,
    calls: &[Call<'text>],
    journal: &mut [Event<'a>],
    room: &'a mut [u32],
) -> Played<'a>
    ensures events { result.events
        ≡ min (playable (length room.old) calls.now) (length journal.old) }
    ensures ending { result.ending
        ≡ script_ending (length room.old) calls.now (length journal.old) }
    ensures calls { map call_of (take result.events journal.new) ≡ take result.events calls.now }
    ensures others { drop result.events journal.new ≡ drop result.events journal.old }
    ensures rest { result.rest.now ≡ drop (used (take result.events calls.now)) room.old }
    ensures law { RunLaw (card_arithmetic card.now) (card_code card.now) room.old
        (take result.events journal.new) }
{
    let mut script = Script { calls };
    work_tag(card, &mut script, journal, room)
}
