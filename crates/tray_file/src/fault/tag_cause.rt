// Why cells are refused.
ghost use Rattle.std.specs.Prelude.{◌≡◌};
ghost use Rattle.tray_file.specs.fault.Layers.{tag_number};

use thiserror::Error;

/// Why cells are refused.
#[derive(Clone, Copy, PartialEq, Eq, Debug, Error)]
pub enum TagCause {
    /// A cell is neither blank nor holds a letter of the alphabet.
    #[error("no letter")]
    NoLetter = 22,
}

impl TagCause {
    /// The cause's number.
    pub fn number(self) -> u32
        ensures { result ≡ tag_number self }
    {
        self as u32
    }
}
