// The steps that a listing mostly has, each done at once where it is allowed, sound and fits. What is not done here, every refusal among it, is `scribe`'s.

#![tactic(auto)]

pub mod adding;
pub mod opening;
pub mod runs;
pub mod steps;
