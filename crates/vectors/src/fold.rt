// The products of an element, as one number.
ghost use Rattle.std.specs.Prelude.{◌≡◌};
ghost use Rattle.vectors.specs.Fold.{folded};

use fields::Field;

// 1 at first, and for each element b in turn the number so far × 257 + a × b, modulo 65521.
pub fn folded_products<F: Field>(field: &F, a: u32) -> u64
    ensures { result
        ≡ folded (F.Field.meaning field.now).arithmetic a
        (F.Field.meaning field.now).arithmetic.size }
{
    let mut so_far = 1;
    for b in 0..field.size() {
        so_far = (so_far * 257 + field.mul(a, b) as u64) % 65521;
    }
    so_far
}
