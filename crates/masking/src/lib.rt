// A file's mask, made in a lent buffer; a file and its mask checked together; a text of them for a reader with the right to names or without it.

#![tactic(auto)]

pub mod finding;
pub mod making;
pub mod matching;
pub mod pair;
pub mod reading;
pub mod tags;
