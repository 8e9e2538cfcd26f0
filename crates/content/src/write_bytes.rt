ghost use Rattle.std.specs.Prelude.{◌≡◌, ◌+◌, ◌*◌, ◌≤◌, length};
ghost use Rattle.content.specs.Rows.{sectors};
ghost use Rattle.content.specs.Writing.{WriteAt};

use super::file_parts::FileParts;
use super::sector_parts::write_part;
use devices::device::{Device, DeviceFault, Sector};

// Writes into the sectors that a file holds, at a position, sector after sector.
pub fn write_at<D: Device>(
    device: &mut D,
    descriptor: &Sector,
    position: usize,
    bytes: &[u8],
) -> Result<(), DeviceFault>
    requires { position + length bytes.now ≤ 256 * length (sectors descriptor.now) }
    ensures done { WriteAt (D.Device.meaning device.old) (D.Device.meaning device.new) (sectors descriptor.now) position bytes.now result }
    ensures beside { D.Device.aside device.new ≡ D.Device.aside device.old }
{
    for part in FileParts::of(descriptor, position, bytes.len()) {
        write_part(device, part.lsn, part.from, &bytes[part.bytes])?;
    }
    Ok(())
}
