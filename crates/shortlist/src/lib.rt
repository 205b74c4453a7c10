// Numbers in an array of their own: a list that is copied as a value is, and needs no heap.
#![tactic(auto)]

mod short_list;

pub use short_list::ShortList;
