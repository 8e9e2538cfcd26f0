// The open paths of a volume: a table of fixed size, so that no call on a volume needs memory.

#![tactic(auto)]

pub mod open_path;
pub mod open_paths;
