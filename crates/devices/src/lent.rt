ghost use Rattle.std.specs.Prelude.{[], ◌∷◌};

use super::device::{Device, DeviceFault};

// A borrowed device is a device: what it means is what the lender means.
impl<'a, D: Device> Device for &'a mut D {
    ghost meaning = { λ d. D.Device.meaning d.now };

    ghost aside = { λ d. ((d.ghost_name ∷ []) ∷ []) ∷ D.Device.aside d.now };

    fn count(&self) -> usize {
        (**self).count()
    }

    fn read(&self, lsn: usize, buf: &mut [u8]) -> Result<(), DeviceFault> {
        (**self).read(lsn, buf)
    }

    fn write(&mut self, lsn: usize, buf: &[u8]) -> Result<(), DeviceFault> {
        (**self).write(lsn, buf)
    }
}
