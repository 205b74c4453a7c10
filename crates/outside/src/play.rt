// Runs of a tag of the field of four elements.
ghost use Rattle.outside.specs.FourRuns.{PlayedOnFour};

use crate::cards::four_card;
use kimzhadyr::card::CardCause;
use kimzhadyr::tag::{Call, Event, Played, play_script};

// Works a fresh tag with so many letters by these calls, as many as the room has numbers and the
// journal has places for.
pub fn play_calls<'a, 'text: 'a>(
    letters: u32,
    calls: &[Call<'text>],
    journal: &mut [Event<'a>],
    room: &'a mut [u32],
) -> Result<Played<'a>, CardCause>
    ensures { PlayedOnFour letters calls.now room.old journal.old journal.new result }
{
    let card = four_card(letters)?;
    Ok(play_script(&card, calls, journal, room))
}
