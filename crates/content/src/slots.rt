ghost use Rattle.std.specs.Prelude.{◌≡◌, ◌<◌, length};
ghost use Rattle.layout.specs.Descriptor.{segments, extent};
ghost use Rattle.layout.specs.Records.{record_at};
ghost use Rattle.content.specs.Slots.{SlotsRead};

use descriptors::places::sector_of;
use devices::device::{Device, DeviceFault, Sector};
use devices::sectors::read_sector;

// How many slots a sector has.
pub const SLOTS: usize = 8;

// Reads the i-th sector of a directory.
pub fn read_slots<D: Device>(
    device: &D,
    descriptor: &Sector,
    i: usize,
) -> Result<Sector, DeviceFault>
    requires { i < length (extent (segments descriptor.now)) }
    ensures { SlotsRead (D.Device.meaning device.now) descriptor.now i result }
{
    let lsn = sector_of(descriptor, i).unwrap();
    read_sector(device, lsn)
}

// The k-th slot of a sector.
pub fn slot_in(sector: &Sector, k: usize) -> [u8; 32]
    requires { k < 8 }
    ensures { result ≡ record_at 32 k sector.now }
{
    *sector[k * 32..k * 32 + 32].as_array().unwrap()
}
