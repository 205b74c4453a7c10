// How a run ends.

/// How a run ended.
#[derive(Clone, Copy, PartialEq, Eq, Debug)]
pub enum Ending {
    /// The worker stopped, while the journal had a place left.
    Stopped,
    /// Each place of the journal has an event.
    JournalFull,
    /// The worker picked a read of more numbers than were left of the room, while the journal had a
    /// place left. That read is not made.
    RoomUsed,
}
