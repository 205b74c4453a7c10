// What a user of the library needs, in one crate: types, traits, calls, and the words of their
// contracts (specs/Lib.antt). Nothing is made here: each item is passed on by name from the crate
// that makes it.
#![tactic(auto)]

/// Cards and the codes over them: cells, sums, the check of a card, the house cards, filling blank
/// cells and encoding.
pub mod card;
/// Fields: the two traits, the kinds that the library makes, and why a field is refused.
pub mod field;
/// The minimal pair of a sequence.
pub mod minimal_pair;
/// Tags: lines of marks, the calls of a tag, and runs of calls.
pub mod tag;
/// Theorems and worked examples: calls that do nothing, and whose clauses are what is proved.
pub mod theorem;
/// Tray files: a reader of their records, the bodies, the writers, and the lines of a file.
pub mod tray;
