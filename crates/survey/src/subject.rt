ghost use Rattle.std.specs.Prelude.{◌≤◌};
ghost use Rattle.devices.specs.Meaning.{Whole};

use super::bounds::Bounds;
use devices::device::Device;

// The subject of a survey: a device, and the bounds of the volume on it. All of the volume lies on the device.
#[derive(Drop)]
pub struct Subject<'a, D: Device> {
    pub device: &'a D,
    pub bounds: Bounds,
    ghost there: { bounds.high ≤ (D.Device.meaning device.now).count },
    ghost whole: { Whole (D.Device.meaning device.now) },
}
