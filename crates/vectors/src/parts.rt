// The parts of a case's text.
ghost use Rattle.std.specs.Prelude.{◌≡◌};
ghost use Rattle.std.specs.List.{before_first, after_first};
ghost use Rattle.vectors.specs.Parts.{semicolon};

// What stands before the first ';', and what after it; the whole text and nothing, where there is
// none.
pub fn cut(text: &str) -> (&str, &str)
    ensures before { result.0.now ≡ before_first semicolon text.now }
    ensures after { result.1.now ≡ after_first semicolon text.now }
{
    text.split_once(';').unwrap_or((text, ""))
}
