// A field answers by its meaning; where it is accepted, the meaning is lawful.
ghost use Rattle.std.specs.Prelude.{◌≡◌};
ghost use Rattle.algebra.specs.Meaning.{Meaning};
ghost use Rattle.algebra.specs.Laws.{Laws};

/// Arithmetic on the numbers below a size, which are the elements. Each call has an answer for
/// every `u32`. Where the field is accepted, the laws of a field hold, and `add`, `sub` and `mul`
/// answer 0 if an argument is no element.
pub trait Field {
    // What the field's calls answer, for all numbers.
    ghost meaning: { Self → Meaning };

    // That a maker's check has passed this field.
    ghost accepted: { Self → Type 0 };

    /// How many elements the field has.
    fn size(&self) -> u32
        ensures { result ≡ (meaning self.now).arithmetic.size };

    /// The sum of `a` and `b`.
    fn add(&self, a: u32, b: u32) -> u32
        ensures { result ≡ (meaning self.now).arithmetic.plus a b };

    /// The difference `a` − `b`.
    fn sub(&self, a: u32, b: u32) -> u32
        ensures { result ≡ (meaning self.now).arithmetic.minus a b };

    /// The product of `a` and `b`.
    fn mul(&self, a: u32, b: u32) -> u32
        ensures { result ≡ (meaning self.now).arithmetic.times a b };

    /// The inverse of `a`. Where the field is accepted, it is the element that makes 1 when it is
    /// multiplied by `a`, and `None` exactly for 0 and for a number that is no element.
    fn invert(&self, a: u32) -> Option<u32>
        ensures { result ≡ (meaning self.now).inverse a };

    ghost lawful: { (x : Self) → accepted x → Laws (meaning x) };
}
