// The bytes of a file: read and written over the sectors of its segments, on every device.

#![tactic(auto)]

pub mod content_laws;
mod file_parts;
pub mod read_bytes;
mod sector_parts;
pub mod slots;
pub mod write_bytes;
