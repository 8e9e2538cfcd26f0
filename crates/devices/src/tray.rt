ghost use Rattle.std.specs.Prelude.{◌≡◌, ℕ, ◌+◌, ◌<◌, ◌≤◌, [], ◌∷◌, slice_index};
ghost use Rattle.devices.specs.Tray.{ShapeOf, SpareRight, LengthRight, Sound, Located, sectors_of, meaning_under, meaning_of, head};

use super::device::{Cause, Device, DeviceFault, SECTOR, ask};
use super::geometry::Geometry;
use super::inspection::{GOOD, HEADER, inspect};

// A tray of sectors: a header that tells its geometry, a state for each sector, and the sectors.
// Bytes that fail the inspection are a tray with no tracks: a device of no sectors.
#[derive(Drop)]
pub struct Tray {
    bytes: Vec<u8>,
    geometry: Geometry,
    ghost shape: { (0 < geometry.tracks → ShapeOf bytes.items geometry) },
    ghost spare: { (0 < geometry.tracks → SpareRight bytes.items) },
    ghost size: { (0 < geometry.tracks → LengthRight bytes.items) },
    ghost states: { ((k : ℕ) → k < sectors_of geometry → slice_index bytes.items (8 + k) ≤ 1) },
}

impl Tray {
    pub fn new(bytes: Vec<u8>) -> Tray
        ensures given { result.bytes ≡ bytes }
        ensures sound { Sound bytes.items → meaning_under result.geometry result.bytes.items ≡ meaning_of bytes.items }
        ensures failed { (Sound bytes.items → ⊥) → sectors_of result.geometry ≡ 0 }
    {
        if let Ok(geometry) = inspect(bytes.as_slice()) {
            return Tray { bytes, geometry };
        }
        let geometry = Geometry {
            tracks: 0,
            sides: 1,
            sectors_per_track: 1,
            interleave: 1,
        };
        Tray { bytes, geometry }
    }

    // The bytes, as the writes have left them. A tray that has sectors is still sound, and means what its bytes mean.
    pub fn into_bytes(self) -> Vec<u8>
        ensures is { result ≡ self.bytes }
        ensures sound { 0 < sectors_of self.geometry → Sound result.items × (meaning_under self.geometry self.bytes.items ≡ meaning_of result.items) }
    {
        let Tray { bytes, geometry: _ } = self;
        bytes
    }

    // Asks a device's questions, and says where the sector begins.
    fn locate(&self, lsn: usize, len: usize) -> Result<usize, DeviceFault>
        ensures { Located self.now.geometry self.now.bytes.items lsn len result }
    {
        let total = self.geometry.total();
        ask(lsn, len, total)?;
        let Some(place) = self.geometry.place(lsn) else {
            unreachable()
        };
        let GOOD = self.bytes[HEADER + place] else {
            return Err(DeviceFault {
                cause: Cause::Bad,
                lsn,
            });
        };
        Ok(HEADER + total + place * SECTOR)
    }
}

impl Device for Tray {
    ghost meaning = { λ d. meaning_under d.geometry d.bytes.items };

    ghost aside = { λ d. (head d.bytes.items (sectors_of d.geometry) ∷ []) ∷ [] };

    fn count(&self) -> usize {
        self.geometry.total()
    }

    fn read(&self, lsn: usize, buf: &mut [u8]) -> Result<(), DeviceFault> {
        let at = self.locate(lsn, buf.len())?;
        buf.copy_from_slice(&self.bytes.as_slice()[at..at + SECTOR]);
        Ok(())
    }

    fn write(&mut self, lsn: usize, buf: &[u8]) -> Result<(), DeviceFault> {
        let at = self.locate(lsn, buf.len())?;
        self.bytes.as_mut_slice()[at..at + SECTOR].copy_from_slice(buf);
        Ok(())
    }
}
