// How texts are written in HTML, with their escapes, in either mode.

#![tactic(auto)]

pub mod escapes;
pub mod strict;
