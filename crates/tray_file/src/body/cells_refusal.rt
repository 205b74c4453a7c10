// Why cells are not read into a buffer.
ghost use Rattle.std.specs.Prelude.{◌≡◌};
ghost use Rattle.tray_file.specs.body.CellRefusals.{cells_refusal_number};
ghost use Rattle.tray_file.specs.declared.body.cells_refusal.CellsRefusal.TheVariants.{Body as body_refusal};

use crate::fault::BodyFault;
use thiserror::Error;

/// Why cells are not read into a buffer.
#[derive(Clone, Copy, PartialEq, Eq, Debug, Error)]
pub enum CellsRefusal {
    /// The buffer is not n long.
    #[error("wrong length")]
    WrongLength,
    /// The body is not that of cells under the card.
    #[error(transparent)]
    Body(BodyFault),
}

// A case holds another fault, so the numbers cannot stand at the cases.
impl CellsRefusal {
    /// The refusal's number: 25, or that of the body's fault.
    pub fn number(self) -> u32
        ensures { result ≡ cells_refusal_number self }
    {
        match self {
            CellsRefusal::WrongLength => 25,
            CellsRefusal::Body(fault) => fault.number(),
        }
    }
}

impl From<BodyFault> for CellsRefusal {
    ghost from_gives = { λ fault refusal. refusal ≡ body_refusal fault };

    fn from(fault: BodyFault) -> CellsRefusal {
        CellsRefusal::Body(fault)
    }
}
