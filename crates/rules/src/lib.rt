// The rules of a sound volume, as definitions, and their names.

#![tactic(auto)]

pub mod laws;
pub mod rule;
