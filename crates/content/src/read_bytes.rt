ghost use Rattle.std.specs.Prelude.{◌≡◌, ◌^◌, ◌<◌};
ghost use Rattle.content.specs.Reading.{readable as ReadableOf, ReadAt};

use super::file_parts::FileParts;
use super::sector_parts::read_part;
use descriptors::places::held_sectors;
use devices::device::{Device, DeviceFault, SECTOR, Sector};
use layout::numbers::number_at;

// How many bytes a file has to read: its size, but no more than its sectors hold.
fn readable(descriptor: &Sector) -> usize
    ensures is { result ≡ ReadableOf descriptor.now }
    ensures fits { result < 2 ^ 32 }
{
    let size = number_at(descriptor, 9, 4);
    size.min(SECTOR * held_sectors(descriptor))
}

// Reads from a file at a position, as much as the buffer takes and the file has left. The bytes behind are as they were.
pub fn read_at<D: Device>(
    device: &D,
    descriptor: &Sector,
    position: usize,
    buffer: &mut [u8],
) -> Result<usize, DeviceFault>
    ensures { ReadAt (D.Device.meaning device.now) descriptor.now position buffer.old buffer.new result }
{
    let left = readable(descriptor).saturating_sub(position);
    let wanted = buffer.len().min(left);
    for part in FileParts::of(descriptor, position, wanted) {
        read_part(device, part.lsn, part.from, &mut buffer[part.bytes])?;
    }
    Ok(wanted)
}
