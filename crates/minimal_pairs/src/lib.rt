// Minimal pairs: a polynomial of least degree that fits a sequence, and its partner.
#![tactic(auto)]

mod minimal_pair;
mod poly;

pub use minimal_pair::{RealiseRefusal, realise, worked_pairs};
