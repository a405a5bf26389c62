// How marks are written in HTML: the tags of styles, and anchors.

#![tactic(auto)]

pub mod anchors;
mod css;
pub mod tags;
