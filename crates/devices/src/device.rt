ghost use Rattle.std.specs.Prelude.{◌≡◌, ℕ, List};
ghost use Rattle.devices.specs.Meaning.{Meaning, Whole, ReadDone, WriteDone, Asked};

// How many bytes a sector has.
pub const SECTOR: usize = 256;

// The bytes of one sector.
pub type Sector = [u8; SECTOR];

// Which of a device's questions was answered with no, in the order in which they are asked.
#[derive(Clone, Copy, PartialEq, Eq, Debug)]
pub enum Cause {
    // the buffer has not 256 bytes
    Length,
    // the sector lies at or past the device's end
    Range,
    // the sector is bad
    Bad,
}

// A device's refusal: the question that failed, and the sector that was asked for.
#[derive(Clone, Copy, PartialEq, Eq, Debug)]
pub struct DeviceFault {
    pub cause: Cause,
    pub lsn: usize,
}

impl DeviceFault {
    // The number of a device's refusal.
    pub const NUMBER: u8 = 14;
}

// A store of sectors of 256 bytes, numbered from 0 by their LSN (logical sector number).
pub trait Device {
    // how many sectors there are, which are bad, and what each other one holds
    ghost meaning: { Self → Meaning };

    // what it has beside its sectors, layer by layer, and no write changes
    ghost aside: { Self → List (List (List ℕ)) };

    // How many sectors there are.
    fn count(&self) -> usize
        ensures is { result ≡ (meaning self.now).count }
        ensures whole { Whole (meaning self.now) };

    // Fills the buffer from a sector.
    fn read(&self, lsn: usize, buf: &mut [u8]) -> Result<(), DeviceFault>
        ensures { ReadDone (meaning self.now) lsn buf.old buf.new result };

    // Replaces a sector by the buffer.
    fn write(&mut self, lsn: usize, buf: &[u8]) -> Result<(), DeviceFault>
        ensures done { WriteDone (meaning self.old) (meaning self.new) lsn buf.now result }
        ensures beside { aside self.new ≡ aside self.old };
}

// The questions on the buffer and on the range, which every device asks first.
pub fn ask(lsn: usize, len: usize, count: usize) -> Result<(), DeviceFault>
    ensures { Asked count lsn len result }
{
    let SECTOR = len else {
        return Err(DeviceFault {
            cause: Cause::Length,
            lsn,
        });
    };
    let true = lsn < count else {
        return Err(DeviceFault {
            cause: Cause::Range,
            lsn,
        });
    };
    Ok(())
}
