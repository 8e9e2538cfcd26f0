ghost use Rattle.std.specs.Prelude.{◌≡◌, ℕ, ◌+◌, ◌*◌, ◌^◌, ◌<◌, ◌≤◌};
ghost use Rattle.layout.specs.Map.{packed, map_sector};
ghost use Rattle.volume.specs.NewVolume.{taken_first};

use super::plan::Plan;
use devices::device::{Device, SECTOR, Sector};
use layout::bitmap::BITS;
use std::array;

// Whether the map of a new volume has a sector as taken: those that are written, the bad ones, and all from the volume's end on.
fn is_taken<D: Device>(device: &D, plan: Plan, lsn: usize) -> bool
    requires { plan.total ≤ (D.Device.meaning device.now).count }
    ensures { result ≡ taken_first (D.Device.meaning device.now) plan.total lsn }
{
    let mut sector = [0u8; SECTOR];
    lsn <= plan.slots_lsn() || lsn >= plan.total || device.read(lsn, &mut sector).is_err()
}

// The byte of the map that begins with a sector.
#[tactic(auto, unfolding(layout::specs::Map::packed))]
fn map_byte<D: Device>(device: &D, plan: Plan, first: usize) -> u8
    requires fits { plan.total ≤ (D.Device.meaning device.now).count }
    requires low { first < 2 ^ 32 }
    ensures { result ≡ packed (taken_first (D.Device.meaning device.now) plan.total) first 8 }
{
    let mut byte: u8 = 0;
    // a loop: the closure of a `fold` would have to ask how many bits the byte has so far, which is no plainer
    for place in 0..8 {
        byte = byte * 2 + u8::from(is_taken(device, plan, first + place));
    }
    byte
}

// A sector of the map of a new volume. Each sector that is not written is read once, to see whether it is bad.
pub(crate) fn new_map_sector<D: Device>(device: &D, plan: Plan, index: usize) -> Sector
    requires fits { plan.total ≤ (D.Device.meaning device.now).count }
    requires low { index < 32 }
    ensures { result ≡ map_sector (taken_first (D.Device.meaning device.now) plan.total) index }
{
    array::from_fn(|i| map_byte(device, plan, index * BITS + i * 8))
}
