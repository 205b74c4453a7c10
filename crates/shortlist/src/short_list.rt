// A list of at most `N` numbers.
ghost use Rattle.std.specs.Prelude.{◌≡◌, ◌<◌, ◌≤◌, [], ◌∷◌, ◌++◌, length, replicate, slice_set};

use std::marker::Model;

/// A list of at most `N` numbers, in an array of its own: it is copied as a value is, and needs no
/// heap. The numbers stand in the first `len` places, and zeros after them.
#[derive(Clone, Copy, Debug)]
pub struct ShortList<const N: usize> {
    len: usize,
    places: [u32; N],
}

// Clauses see the list of the numbers.
impl<const N: usize> Model for ShortList<N> {
    ghost use Rattle.std.specs.Prelude.{◌≡◌, ◌≤◌, ◌++◌, ◌-◌, ℕ, List, length, take, replicate};

    ghost Value = { List ℕ };

    ghost view = { λ l. take l.len l.places };

    ghost invariant = { λ l. (l.len ≤ N) × (length l.places ≡ N)
        × (l.places ≡ take l.len l.places ++ replicate (N - l.len) 0) };

    ghost inverse = { λ numbers. record {
      len = length numbers;
      places = numbers ++ replicate (N - length numbers) 0;
    } };
}

impl<const N: usize> ShortList<N> {
    /// The empty list.
    pub fn new() -> Self
        ensures { result ≡ [] }
    {
        ShortList {
            len: 0,
            places: [0; N],
        }
    }

    /// The list of so many zeros, at most `N`.
    pub fn zeros(len: usize) -> Self
        requires { len ≤ N }
        ensures { result ≡ replicate len 0 }
    {
        ShortList {
            len,
            places: [0; N],
        }
    }

    /// How many numbers the list holds.
    pub fn len(&self) -> usize
        ensures value { result ≡ length self.now }
        ensures fits { result ≤ N }
    {
        self.as_slice().len()
    }

    /// Adds a number at the end of a list that holds fewer than `N`.
    pub fn push(&mut self, number: u32)
        requires { length self.old < N }
        ensures { self.new ≡ self.old ++ number ∷ [] }
    {
        self.places[self.len] = number;
        self.len += 1;
    }

    /// Puts a number in the place of the one at `index`, which the list has. A loop that knows
    /// beforehand how many numbers it puts takes less time so: `push` writes the length each time.
    pub fn set(&mut self, index: usize, number: u32)
        requires { index < length self.old }
        ensures { self.new ≡ slice_set self.old index number }
    {
        self.places[..self.len][index] = number;
    }

    /// The numbers that the list holds, without the zeros after them.
    pub fn as_slice(&self) -> &[u32]
        ensures value { result.now ≡ self.now }
        ensures fits { length result.now ≤ N }
    {
        &self.places[..self.len]
    }

    /// The list of a slice's numbers, which are at most `N`.
    pub fn from_slice(numbers: &[u32]) -> Self
        requires { length numbers.now ≤ N }
        ensures { result ≡ numbers.now }
    {
        let mut list = ShortList::new();
        for number in numbers {
            list.push(*number);
        }
        list
    }
}
