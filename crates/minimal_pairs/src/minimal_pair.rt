// Minimal pairs: a polynomial of least degree that fits a sequence, and its partner.
ghost use Rattle.std.specs.Prelude.{◌≡◌, ◌+◌, ◌<◌, length, pos, ◌≤ℤ◌, ◌<ℤ◌, unsigned_abs};
ghost use Rattle.algebra.specs.Limits.{longest_sequence, coefficients};
ghost use Rattle.algebra.specs.Realisation.{applied};
ghost use Rattle.minimal_pairs.specs.MinimalPair.{start, changed, updated, stepped, Counted, Bounded, Realised, MinimalAnswer, realise_number};
ghost use Rattle.minimal_pairs.specs.WorkedPairs.{WorkedPairs};

use crate::poly::{Combination, Poly};
use algebra::{COEFFICIENTS, LONGEST_SEQUENCE};
use fields::{Field, all_below};
use thiserror::Error;

/// Why a sequence is not realised.
#[derive(Clone, Copy, PartialEq, Eq, Debug, Error)]
pub enum RealiseRefusal {
    /// The sequence has more than 64 numbers, or a buffer is not of 65.
    #[error("wrong length")]
    WrongLength = 25,
    /// A number of the sequence is no element.
    #[error("no element")]
    NoElement = 17,
}

impl RealiseRefusal {
    /// The refusal's number.
    pub fn number(self) -> u32
        ensures { result ≡ realise_number self }
    {
        self as u32
    }
}

// A polynomial f and its partner w.
#[derive(Drop)]
struct Pair {
    f: Poly,
    w: Poly,
}

// What the algorithm holds between two numbers of the sequence. That nothing but zeros stands above
// the degree (`Bounded`) is asked for by the calls of a step; no ghost field keeps it, since they
// change one field after another.
#[derive(Drop)]
struct State {
    pair: Pair,
    // The degree of the pair's f.
    degree: usize,
    // The pair from before the last growth of the degree, with the discrepancy that it had then.
    kept: Pair,
    kept_discrepancy: u32,
    // Twice the degree, minus the numbers read, minus one.
    d: i32,
}

impl State {
    // Before the first number: the pair 1, 0 and the kept pair 0, −1.
    fn new<F: Field>(field: &F) -> State
        ensures { result ≡ start (F.Field.meaning field.now).arithmetic }
    {
        State {
            pair: Pair {
                f: Poly::constant(1),
                w: Poly::constant(0),
            },
            degree: 0,
            kept: Pair {
                f: Poly::constant(0),
                w: Poly::constant(field.sub(0, 1)),
            },
            kept_discrepancy: 1,
            d: -1,
        }
    }

    // The pair and the kept pair in each other's places, before a new pair of a larger degree is
    // made; `discrepancy` is that of the pair which is kept from now on.
    fn change(&mut self, discrepancy: u32)
        requires negative { self.old.d <ℤ pos 0 }
        requires small { self.old.degree + unsigned_abs self.old.d < coefficients }
        requires bounded { Bounded self.old }
        ensures { self.new ≡ changed discrepancy self.old }
    {
        self.pair.f.exchange(&mut self.kept.f, self.degree);
        self.pair.w.exchange(&mut self.kept.w, self.degree);
        self.kept_discrepancy = discrepancy;
        self.d = -self.d;
        self.degree += self.d as usize;
    }

    // The new pair: kept discrepancy × pair − discrepancy × X^d × kept pair.
    fn update<F: Field>(&mut self, field: &F, discrepancy: u32)
        requires positive { pos 0 ≤ℤ self.old.d }
        requires small { self.old.degree < coefficients }
        requires bounded { Bounded self.old }
        ensures { self.new ≡ updated (F.Field.meaning field.now).arithmetic discrepancy self.old }
    {
        let combination = Combination {
            a: self.kept_discrepancy,
            b: discrepancy,
            d: self.d as usize,
            degree: self.degree,
        };
        combination.combine(field, &mut self.pair.f, &self.kept.f);
        combination.combine(field, &mut self.pair.w, &self.kept.w);
        self.d -= 1;
    }

    // Reads number i of the sequence.
    fn step<F: Field>(&mut self, field: &F, sequence: &[u32], i: usize)
        requires counted { Counted i self.old }
        requires bounded { Bounded self.old }
        requires within { i < length sequence.now }
        requires short { i < longest_sequence }
        ensures { self.new
            ≡ stepped (F.Field.meaning field.now).arithmetic sequence.now i self.old }
    {
        let discrepancy = apply(field, &self.pair.f, self.degree, sequence, i - self.degree);
        if discrepancy == 0 {
            self.d -= 1;
        } else if self.d < 0 {
            let kept_discrepancy = self.kept_discrepancy;
            self.change(discrepancy);
            self.update(field, kept_discrepancy);
        } else {
            self.update(field, discrepancy);
        }
    }
}

// f_0 × s_k + .. + f_m × s_(k+m), with m the degree. It adds from the lowest coefficient up, as the
// contract does for every field; the sum over coefficients of `decoding` adds from the highest
// down.
fn apply<F: Field>(field: &F, f: &Poly, degree: usize, sequence: &[u32], k: usize) -> u32
    requires small { degree < coefficients }
    requires within { k + degree < length sequence.now }
    ensures { result
        ≡ applied (F.Field.meaning field.now).arithmetic f.now.coeffs degree sequence.now k }
{
    let mut sum = 0;
    for (coefficient, x) in f.coeffs[..=degree].iter().zip(&sequence[k..]) {
        sum = field.add(sum, field.mul(*coefficient, *x));
    }
    sum
}

/// Writes into `f` and `w`, buffers of 65 numbers each, a minimal pair of the sequence, and answers
/// the degree of f. The constant terms come first, and zeros stand above the degree. Where the
/// field is accepted, f fits the sequence, w is its partner, and nothing of lower degree fits.
/// Refused with 25 where the sequence has more than 64 numbers or a buffer another length, then 17
/// where a number is no element. Both buffers are then as they were.
pub fn realise<F: Field>(
    field: &F,
    sequence: &[u32],
    f: &mut [u32],
    w: &mut [u32],
) -> Result<usize, RealiseRefusal>
    ensures pinned { Realised (F.Field.meaning field.now).arithmetic sequence.now
        f.old w.old f.new w.new result }
    ensures minimal { F.Field.accepted field.now
        → MinimalAnswer (F.Field.meaning field.now).arithmetic sequence.now f.new w.new result }
{
    if sequence.len() > LONGEST_SEQUENCE || f.len() != COEFFICIENTS || w.len() != COEFFICIENTS {
        return Err(RealiseRefusal::WrongLength);
    }
    if !all_below(sequence, field.size()) {
        return Err(RealiseRefusal::NoElement);
    }
    let mut state = State::new(field);
    // A step takes the place, since it reads the sequence from there back.
    for i in 0..sequence.len() {
        state.step(field, sequence, i);
    }
    f.copy_from_slice(&state.pair.f.coeffs);
    w.copy_from_slice(&state.pair.w.coeffs);
    Ok(state.degree)
}

/// The worked examples hold of the definitions. The call does nothing: its clause is the examples.
pub fn worked_pairs()
    ensures { WorkedPairs }
{}
