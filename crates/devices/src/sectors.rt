ghost use Rattle.std.specs.Prelude.{◌≡◌, MatchResult};
ghost use Rattle.devices.specs.Meaning.{Accepts, Refuses};

use super::device::{Device, DeviceFault, SECTOR, Sector};

// What a sector holds.
pub fn read_sector<D: Device>(device: &D, lsn: usize) -> Result<Sector, DeviceFault>
    ensures { let m = D.Device.meaning device.now in MatchResult result (λ bytes. Accepts m lsn 256 × (bytes ≡ m.sector lsn)) (λ f. Refuses m lsn 256 f) }
{
    let mut sector = [0; SECTOR];
    device.read(lsn, &mut sector)?;
    Ok(sector)
}
