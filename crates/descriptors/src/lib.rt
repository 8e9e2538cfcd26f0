// Descriptors: their fields, the segment list of a file, and the sectors that it names.

#![tactic(auto)]

pub mod fields;
pub mod heading;
pub mod new_descriptor;
pub mod places;
pub mod segment_entries;
pub mod segment_list;
pub mod segments;
