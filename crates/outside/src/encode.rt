// Encoding with four letters.
ghost use Rattle.outside.specs.FourCards.{EncodedOnFour};

use crate::cards::{CELLS, DATA, four_card};
use kimzhadyr::card::EncodeRefusal;

// The four letters that begin with these two.
pub fn encode_pair(letters: &[u32; DATA]) -> Result<[u32; CELLS], EncodeRefusal>
    ensures { EncodedOnFour letters.now result }
{
    let card = four_card(4).unwrap();
    let mut word = [0; CELLS];
    kimzhadyr::card::encode(&card, letters, &mut word)?;
    Ok(word)
}
