ghost use Rattle.std.specs.Prelude.{◌≡◌, [], ◌∷◌, vec_len};
ghost use Rattle.devices.specs.Flat.{flat_meaning, tail, FlatLocated};

use super::device::{Device, DeviceFault, SECTOR, ask};

// A flat image: sector after sector, none of them bad. Bytes past the last whole sector belong to none.
#[derive(Drop)]
pub struct FlatImage {
    bytes: Vec<u8>,
}

impl FlatImage {
    pub fn new(bytes: Vec<u8>) -> FlatImage
        ensures { result.bytes ≡ bytes }
    {
        FlatImage { bytes }
    }

    // The bytes, as the writes have left them.
    pub fn into_bytes(self) -> Vec<u8>
        ensures { result ≡ self.bytes }
    {
        let FlatImage { bytes } = self;
        bytes
    }

    // Asks a device's questions, and says where the sector begins.
    fn locate(&self, lsn: usize, len: usize) -> Result<usize, DeviceFault>
        ensures { FlatLocated self.now.bytes.items (vec_len self.now.bytes) lsn len result }
    {
        ask(lsn, len, self.count())?;
        Ok(lsn * SECTOR)
    }
}

// Reading and writing are as in a tray, two short lines behind the search: functions for the copies would be no plainer.
impl Device for FlatImage {
    ghost meaning = { λ d. flat_meaning d.bytes.items (vec_len d.bytes) };

    ghost aside = { λ d. (tail d.bytes.items ∷ []) ∷ [] };

    fn count(&self) -> usize {
        self.bytes.len() / SECTOR
    }

    fn read(&self, lsn: usize, buf: &mut [u8]) -> Result<(), DeviceFault> {
        let at = self.locate(lsn, buf.len())?;
        buf.copy_from_slice(&self.bytes.as_slice()[at..at + SECTOR]);
        Ok(())
    }

    fn write(&mut self, lsn: usize, buf: &[u8]) -> Result<(), DeviceFault> {
        let at = self.locate(lsn, buf.len())?;
        self.bytes.as_mut_slice()[at..at + SECTOR].copy_from_slice(buf);
        Ok(())
    }
}
