// The shape of a card that was read.
ghost use Rattle.codes.specs.AnyCards.{any_code};
ghost use Rattle.codes.specs.Cards.{card_code};
ghost use Rattle.tray_file.specs.body.CardShapes.{ShapeOf};

use crate::body::card_shape::CardShape;
use codes::{AnyCard, Card};
use fields::LetteredField;

pub(crate) fn shape_of_any(card: &AnyCard) -> CardShape
    ensures { ShapeOf (any_code card.now) result }
{
    match card {
        AnyCard::Prime(card) => shape_of(card),
        AnyCard::Binary(card) => shape_of(card),
    }
}

pub(crate) fn shape_of<F: LetteredField>(card: &Card<F>) -> CardShape
    ensures { ShapeOf (card_code card.now) result }
{
    CardShape {
        cells: card.cells(),
        letters: card.code().letters,
    }
}
