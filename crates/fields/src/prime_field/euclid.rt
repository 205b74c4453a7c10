// Inverses modulo a prime, by Euclid's algorithm.
ghost use Rattle.std.specs.Prelude.{◌≡◌, ◌*◌, ◌%◌, ◌^◌, ◌<◌, ◌≤◌};
ghost use Rattle.fields.specs.Modulo.{Prime};

// The b below p with a × b = 1 modulo p, in O(log p) steps. The binary kind has a loop of its own:
// it has no quotients, it shifts and adds, so one loop over both would hide the steps of each.
pub fn inverse(p: u32, a: u32) -> u32
    requires prime { Prime p }
    requires small { p ≤ 2 ^ 16 }
    requires positive { 0 < a }
    requires element { a < p }
    ensures below { result < p }
    ensures inverts { (a * result) % p ≡ 1 }
{
    let mut u = p;
    let mut v = a;
    // Modulo p, u is g × a and v is h × a.
    let mut g = 0;
    let mut h = 1;
    while v != 0 {
        let quotient = u / v;
        let rest = u % v;
        let next = (g + (p - quotient * h % p)) % p;
        u = v;
        v = rest;
        g = h;
        h = next;
    }
    g
}
