// The engraved tags that are read.
ghost use Rattle.std.specs.Prelude.{◌≡◌, ◌↔◌, IsTrue};
ghost use Rattle.fields.specs.Binary.{binary_meaning};
ghost use Rattle.codes.specs.Cards.{card_code};
ghost use Rattle.codes.specs.Codeword.{Codeword};
ghost use Rattle.tags.specs.tag.Tags.{tag_arithmetic, tag_code, tag_cells};
ghost use Rattle.bench.specs.Readings.{ByFives, SomeWord, NotedDamaged, ReadRight};

use crate::damage::Damage;
use codes::{Card, ENGRAVED};
use decoding::{EncodeRefusal, encode};
use fields::BinaryField;
use tags::Tag;

pub const CELLS: usize = ENGRAVED.cells;

const DATA: usize = CELLS - ENGRAVED.rows;

// A word of the card: the letters 0, 5, 10 and so on, encoded.
pub fn some_word(card: &Card<BinaryField>) -> Result<[u32; CELLS], EncodeRefusal>
    ensures { SomeWord (binary_meaning card.now.field) (card_code card.now) result }
{
    let letters = data_letters();
    let mut word = [0; CELLS];
    encode(card, &letters, &mut word)?;
    Ok(word)
}

fn data_letters() -> [u32; DATA]
    ensures { ByFives result }
{
    let mut letters = [0; DATA];
    for j in 0..DATA {
        letters[j] = 5 * j as u32;
    }
    letters
}

// Notes a word of the card with its first cells left as they are and those after them wrong. The
// tag is still one of its card, whatever the numbers are.
pub fn note_damaged(tag: &mut Tag<'_, BinaryField>, word: &[u32; CELLS], damage: Damage)
    ensures card { tag.new.card.now ≡ tag.old.card.now }
    ensures cells { Codeword (tag_arithmetic tag.old) (tag_code tag.old) word.now
        → NotedDamaged damage word.now (tag_cells tag.old) (tag_cells tag.new) }
{
    for j in 0..CELLS {
        if let Some(letter) = damage.noted(j, word[j]) {
            // Refused where there is no such cell or the number is no letter: never for a word of
            // the card.
            let _ = tag.note(j + 1, letter);
        }
    }
}

// Whether the tag reads as the word, with the damage counted.
pub fn reads(tag: &Tag<'_, BinaryField>, word: &[u32; CELLS], damage: Damage) -> bool
    ensures { IsTrue result
        ↔ ReadRight (tag_arithmetic tag.now) (tag_code tag.now) (tag_cells tag.now)
        word.now damage }
{
    let mut read = [0; CELLS];
    let Ok(counts) = tag.read(&mut read) else {
        return false;
    };
    counts.wrong == damage.wrong && counts.blank == damage.blank && read == *word
}
