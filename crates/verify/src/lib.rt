// The file check: the walk over a file's fields from the front, and the first fault with its place.

#![tactic(auto)]

pub mod content;
pub mod front;
pub mod glance;
pub mod inner;
pub mod seen;
pub mod style;
pub mod tables;
pub mod verdict;
pub mod walk;
