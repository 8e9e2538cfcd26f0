// The parts of a survey: what it checks of a descriptor, of a slot and of the map, and the marks it sets.

#![tactic(auto)]

pub mod bounds;
pub mod descriptor_checks;
pub mod dots;
pub mod finding;
pub mod known_names;
pub mod map_checks;
pub mod marking;
pub mod scan;
pub mod sector_checks;
mod sectors;
pub mod slot_checks;
pub mod slot_taking;
pub mod slots;
pub mod subject;
pub mod visit;
pub mod waiting;
pub mod walk;
pub mod work_lists;
