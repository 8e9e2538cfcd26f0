ghost use Rattle.std.specs.Prelude.{◌≡◌, ◌+◌, ◌^◌, ◌<◌, ◌∷◌};
ghost use Rattle.devices.specs.Meaning.{Whole};
ghost use Rattle.devices.specs.Window.{extent as reach, window_meaning, around};

use super::device::{Device, DeviceFault, ask};

// A part of another device, with LSNs of its own: its sector 0 is the lower device's sector `start`.
// It ends where either ends, and is empty where it starts at or past the lower device's end.
#[derive(Drop)]
pub struct Window<D> {
    lower: D,
    start: usize,
    count: usize,
}

impl<D: Device> Window<D> {
    pub fn new(lower: D, start: usize, count: usize) -> Window<D>
        ensures { (result.lower ≡ lower) × (result.start ≡ start) × (result.count ≡ count) }
    {
        Window {
            lower,
            start,
            count,
        }
    }

    // The device below, as the writes have left it.
    pub fn into_lower(self) -> D
        ensures { result ≡ self.lower }
    {
        let Window {
            lower,
            start: _,
            count: _,
        } = self;
        lower
    }

    fn extent(&self) -> usize
        ensures is { result ≡ reach (D.Device.meaning self.now.lower) self.now.start self.now.count }
        ensures room { self.now.start + result < 2 ^ 64 }
        ensures whole { Whole (D.Device.meaning self.now.lower) }
    {
        self.count
            .min(self.lower.count().saturating_sub(self.start))
    }
}

impl<D: Device> Device for Window<D> {
    ghost meaning = { λ w. window_meaning (D.Device.meaning w.lower) w.start w.count };

    ghost aside = { λ w. around (D.Device.meaning w.lower) w.start w.count ∷ D.Device.aside w.lower };

    fn count(&self) -> usize {
        self.extent()
    }

    fn read(&self, lsn: usize, buf: &mut [u8]) -> Result<(), DeviceFault> {
        ask(lsn, buf.len(), self.extent())?;
        self.lower
            .read(self.start + lsn, buf)
            .map_err(|fault| DeviceFault { lsn, ..fault })
    }

    fn write(&mut self, lsn: usize, buf: &[u8]) -> Result<(), DeviceFault> {
        ask(lsn, buf.len(), self.extent())?;
        self.lower
            .write(self.start + lsn, buf)
            .map_err(|fault| DeviceFault { lsn, ..fault })
    }
}
