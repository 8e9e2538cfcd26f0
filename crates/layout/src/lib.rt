// The layout of a volume in its sectors: numbers, records, names and the allocation map, read and written by their definitions.

#![tactic(auto)]

pub mod attribute;
pub mod bitmap;
pub mod descriptor;
pub mod directory_entry;
pub mod names;
pub mod numbers;
pub mod records;
pub mod segment;
pub mod segment_entry;
pub mod stored_slot;
