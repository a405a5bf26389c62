// The writer of fragment files: one step at a time, over the caller's buffer.

#![tactic(auto)]

pub mod checks;
pub mod held;
pub mod numbers;
pub mod opened;
pub mod plan;
pub mod put;
pub mod stepping;
pub mod style;
