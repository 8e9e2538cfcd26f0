ghost use Rattle.std.specs.Prelude.{◌≡◌, ◌+◌, ◌≤◌, length};
ghost use Rattle.content.specs.Reading.{PartRead};
ghost use Rattle.content.specs.Writing.{PartWritten};

use devices::device::{Device, DeviceFault, SECTOR};
use devices::sectors::read_sector;
use layout::numbers::put;

// Reads a part of one sector, from the byte `from` on. A sector that is read whole goes straight into the buffer.
pub(crate) fn read_part<D: Device>(
    device: &D,
    lsn: usize,
    from: usize,
    part: &mut [u8],
) -> Result<(), DeviceFault>
    requires { from + length part.old ≤ 256 }
    ensures { PartRead (D.Device.meaning device.now) lsn from part.old part.new result }
{
    if part.len() == SECTOR {
        return device.read(lsn, part);
    }
    let sector = read_sector(device, lsn)?;
    part.copy_from_slice(&sector[from..from + part.len()]);
    Ok(())
}

// Writes a part of one sector, from the byte `from` on. A sector that is written whole is not read.
pub(crate) fn write_part<D: Device>(
    device: &mut D,
    lsn: usize,
    from: usize,
    part: &[u8],
) -> Result<(), DeviceFault>
    requires { from + length part.now ≤ 256 }
    ensures done { PartWritten (D.Device.meaning device.old) (D.Device.meaning device.new) lsn from part.now result }
    ensures beside { D.Device.aside device.new ≡ D.Device.aside device.old }
{
    if part.len() == SECTOR {
        return device.write(lsn, part);
    }
    let mut sector = read_sector(device, lsn)?;
    put(&mut sector, from, part);
    device.write(lsn, &sector)
}
