// Why a wipe is refused.
ghost use Rattle.std.specs.Prelude.{◌≡◌};
ghost use Rattle.tags.specs.tag.Tags.{wipe_number};

use thiserror::Error;

/// Why a wipe is refused.
#[derive(Clone, Copy, PartialEq, Eq, Debug, Error)]
pub enum WipeRefusal {
    /// The cell is not from 1 to n.
    #[error("no such cell")]
    NoSuchCell = 21,
}

impl WipeRefusal {
    /// The refusal's number.
    pub fn number(self) -> u32
        ensures { result ≡ wipe_number self }
    {
        self as u32
    }
}
