ghost use Rattle.volume.specs.Sectors.{Loaded};

use super::fault::{During, Part, VolumeFault};
use devices::device::{Device, Sector};
use devices::sectors::read_sector;

// Reads one sector, as a part of a volume.
pub fn load<D: Device>(device: &D, lsn: usize, part: Part) -> Result<Sector, VolumeFault>
    ensures { Loaded (D.Device.meaning device.now) lsn part result }
{
    Ok(read_sector(device, lsn).during(part)?)
}
