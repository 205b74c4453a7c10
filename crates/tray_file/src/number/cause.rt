// Why a number can't be read.
ghost use Rattle.std.specs.Prelude.{◌≡◌};
ghost use Rattle.tray_file.specs.number.NumberCauses.{number_cause_number};

use thiserror::Error;

#[derive(Clone, Copy, PartialEq, Eq, Debug, Error)]
pub(crate) enum NumberCause {
    #[error("cut off")]
    CutOff = 31,
    #[error("bad number")]
    BadNumber = 32,
}

impl NumberCause {
    pub fn number(self) -> u32
        ensures { result ≡ number_cause_number self }
    {
        self as u32
    }
}
