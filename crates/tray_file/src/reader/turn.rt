// What is in turn after what was read.
ghost use Rattle.std.specs.Prelude.{◌≡◌};
ghost use Rattle.tray_file.specs.reader.Turns.{TaskOf, last_card, lent_card, turn_after};

use crate::reader::kind::Kind;
use codes::AnyCard;

// What was read, as far as it decides what is in turn. The card is the last that was read.
#[derive(Drop)]
pub(crate) enum Turn {
    // Nothing was read: only a card is in turn.
    Start,
    // The card, and what is in turn after the last record. They stand apart, so that cells and
    // notes leave the card where it is.
    After(AnyCard, Allowed),
}

// What is in turn once a card was read.
#[derive(Clone, Copy)]
pub(crate) enum Allowed {
    // A card or cells were read: every kind is in turn.
    EveryKind,
    // A note was read: a second note is out of turn.
    NoNote,
}

// What a record in turn must be: a card, cells under the card, or a note.
#[derive(Clone, Copy)]
pub(crate) enum Task<'a> {
    Card,
    Cells(&'a AnyCard),
    Note,
}

// The task of a record of this kind, or nothing where it is out of turn.
pub(crate) fn task_of(turn: &Turn, kind: Kind) -> Option<Task<'_>>
    ensures { TaskOf turn.now kind result }
{
    match (turn, kind) {
        (_, Kind::Card) => Some(Task::Card),
        (Turn::After(card, _), Kind::Cells) => Some(Task::Cells(card)),
        (Turn::After(_, Allowed::EveryKind), Kind::Note) => Some(Task::Note),
        (Turn::Start, Kind::Cells) => None,
        (Turn::Start, Kind::Note) => None,
        (Turn::After(_, Allowed::NoNote), Kind::Note) => None,
    }
}

impl Turn {
    // The last card that was read.
    pub fn card(&self) -> Option<&AnyCard>
        ensures { lent_card result ≡ last_card self.now }
    {
        match self {
            Turn::Start => None,
            Turn::After(card, _) => Some(card),
        }
    }

    // What is in turn after a record of this kind more. The card stays where it is.
    pub fn pass(&mut self, kind: Kind)
        ensures { self.new ≡ turn_after self.old kind }
    {
        match (self, kind) {
            (Turn::Start, _) => {}
            (Turn::After(_, allowed), Kind::Card) => *allowed = Allowed::EveryKind,
            (Turn::After(_, allowed), Kind::Cells) => *allowed = Allowed::EveryKind,
            (Turn::After(_, allowed), Kind::Note) => *allowed = Allowed::NoNote,
        }
    }
}
