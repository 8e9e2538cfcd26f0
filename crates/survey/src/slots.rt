ghost use Rattle.std.specs.Prelude.{◌≡◌, ◌/◌, ◌<◌, length};
ghost use Rattle.layout.specs.Descriptor.{segments, extent};
ghost use Rattle.survey.specs.Slots.{SlotRead};

use super::finding::{Finding, Reading};
use content::slots::{SLOTS, slot_in};
use descriptors::places::sector_of;
use devices::device::{Device, SECTOR};

// Reads the slot k of a directory: 32 bytes of one of its sectors.
pub fn read_slot<D: Device>(
    device: &D,
    descriptor: &[u8; 256],
    k: usize,
) -> Result<[u8; 32], Finding>
    requires { k / 8 < length (extent (segments descriptor.now)) }
    ensures { SlotRead (D.Device.meaning device.now) descriptor.now k result }
{
    let Some(lsn) = sector_of(descriptor, k / SLOTS) else {
        unreachable()
    };
    // into a sector of its own: one that `load` answers is copied more than once on its way here, for 32 bytes of it
    let mut sector = [0; SECTOR];
    device
        .read(lsn, &mut sector)
        .map_err(|fault| Finding::Unread {
            reading: Reading::Directory,
            fault,
        })?;
    Ok(slot_in(&sector, k % SLOTS))
}
