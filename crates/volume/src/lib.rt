// The volume layer: what a volume's record holds, and how a volume is made.

#![tactic(auto)]

pub mod count;
pub mod fault;
pub mod format;
pub mod new_map;
pub mod new_sectors;
pub mod open_paths;
mod plan;
pub mod sectors;
pub mod survey_volume;
pub mod volume_record;
