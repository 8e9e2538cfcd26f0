// Devices: what keeps sectors. A device is known by its meaning alone, and every layer above is proved against that.

#![tactic(auto)]

pub mod device;
pub mod flat;
pub mod geometry;
pub mod inspection;
pub mod lent;
pub mod sectors;
pub mod tray;
pub mod window;
