// Polynomials over two elements as numbers: bit i is the coefficient of X^i.
ghost use Rattle.std.specs.Prelude.{◌≡◌, ℕ, ◌*◌, ◌^◌, ◌<◌};
ghost use Rattle.fields.specs.CarrylessProduct.{◌⊗◌};
ghost use Rattle.fields.specs.LongDivision.{Degree, remainder};

// The degree of `a`, which is not 0. A number and no `NonZero`: callers know it from a test or a
// clause, and would have to wrap it at each call.
pub fn degree_of(a: u32) -> u32
    requires { 0 < a }
    ensures degree { Degree a result }
    ensures below { result < 32 }
{
    a.ilog2()
}

// X times `x` modulo `f`.
fn times_x(x: u32, f: u32, degree: u32) -> u32
    requires modulus { Degree f degree }
    requires element { x < 2 ^ degree }
    ensures { result ≡ remainder f degree (x * 2) }
{
    let y = x << 1;
    let carry = y >> degree;
    if carry == 1 { y ^ f } else { y }
}

// The product of `a` and `b` modulo `f`.
pub fn product(a: u32, b: u32, f: u32, degree: u32) -> u32
    requires modulus { Degree f degree }
    requires first { a < 2 ^ degree }
    requires second { b < 2 ^ degree }
    ensures { result ≡ remainder f degree (a ⊗ b) }
{
    // Horner's rule, from the highest coefficient of `a` down.
    let mut x = 0;
    for i in (0..degree).rev() {
        x = times_x(x, f, degree) ^ (a >> i & 1) * b;
    }
    x
}

// The remainder of `a` after division by `divisor`.
pub fn remainder_of(a: u32, divisor: u32) -> u32
    requires { 0 < divisor }
    ensures { (k : ℕ) → Degree divisor k → result ≡ remainder divisor k a }
{
    let degree = degree_of(divisor);
    let mut rest = a;
    while rest >> degree != 0 {
        rest ^= divisor << (degree_of(rest) - degree);
    }
    rest
}
