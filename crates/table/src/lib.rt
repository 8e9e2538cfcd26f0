// The table of a volume, and the laws that keep a volume sound.

#![tactic(auto)]

pub mod laws;
