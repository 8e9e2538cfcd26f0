ghost use Rattle.survey.specs.Sectors.{Loaded};

use super::finding::{Finding, Reading};
use devices::device::{Device, Sector};
use devices::sectors::read_sector;

// What a sector holds. A refusal says what was being read.
pub(crate) fn load<D: Device>(device: &D, lsn: usize, reading: Reading) -> Result<Sector, Finding>
    ensures { Loaded (D.Device.meaning device.now) lsn reading result }
{
    read_sector(device, lsn).map_err(|fault| Finding::Unread { reading, fault })
}
