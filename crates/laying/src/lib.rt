// The first walk over a file that is only read: check and layout at once. Where a block's tag would become a 3, a bit is set in an array beside the file.

#![tactic(auto)]

pub mod flex;
pub mod leaves;
pub mod marks;
pub mod stretch;
pub mod whole;
