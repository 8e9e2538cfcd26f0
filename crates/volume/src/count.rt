ghost use Rattle.volume.specs.Counting.{Counted};

use super::fault::{Part, VolumeFault};
use super::sectors::load;
use super::volume_record::Volume;
use devices::device::Device;
use layout::bitmap::{BITS, clear_in, map_length};

// How many sectors of a volume are clear, by its map: each map sector is read once.
pub fn clear_sectors<D: Device>(device: &D, volume: &Volume) -> Result<usize, VolumeFault>
    ensures { Counted (D.Device.meaning device.now) volume.now.total result }
{
    let total = volume.total();
    let mut clear = 0;
    // a loop: a sum into a `Result` tells nothing of the sector that fails, and a `try_fold` is no plainer
    for index in 0..map_length(total) {
        let sector = load(device, 1 + index, Part::Map)?;
        let bits = BITS.min(total - index * BITS);
        clear += clear_in(&sector, bits);
    }
    Ok(clear)
}
