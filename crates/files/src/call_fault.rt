ghost use Rattle.std.specs.Prelude.{◌≡◌, Some};
ghost use Rattle.files.specs.CallFaults.{of_tray, of_volume, number_of, place_of, layer_of, refusal_text};

use devices::inspection::TrayFault;
use std::fmt;
use volume::fault::{Layer, VolumeFault};

// A refusal of a call, with the lower layer's refusal whole inside it.
#[derive(Clone, Copy, PartialEq, Eq, Debug)]
pub enum CallFault {
    Tray(TrayFault),
    Volume(VolumeFault),
}

impl CallFault {
    pub fn number(self) -> u8
        ensures { result ≡ number_of self }
    {
        match self {
            CallFault::Tray(_) => TrayFault::NUMBER,
            CallFault::Volume(fault) => fault.number(),
        }
    }

    pub fn place(self) -> usize
        ensures { result ≡ place_of self }
    {
        match self {
            CallFault::Tray(fault) => fault.place,
            CallFault::Volume(fault) => fault.place(),
        }
    }

    // The layer that the refusal first came from.
    pub fn layer(self) -> Layer
        ensures { result ≡ layer_of self }
    {
        match self {
            CallFault::Tray(_) => Layer::Devices,
            CallFault::Volume(fault) => fault.layer(),
        }
    }
}

// The line that scripts read: `refused NUMBER PLACE LAYER`.
impl fmt::Display for CallFault {
    ghost output = { λ fault. Some (refusal_text fault) };

    fn fmt<W: fmt::Write>(&self, f: &mut fmt::Formatter<W>) -> fmt::Result {
        let number = self.number();
        let place = self.place();
        let layer = self.layer();
        write!(f, "refused {number} {place} {layer}")
    }
}

impl From<TrayFault> for CallFault {
    ghost from_gives = { λ x y. y ≡ of_tray x };

    fn from(value: TrayFault) -> CallFault {
        CallFault::Tray(value)
    }
}

impl From<VolumeFault> for CallFault {
    ghost from_gives = { λ x y. y ≡ of_volume x };

    fn from(value: VolumeFault) -> CallFault {
        CallFault::Volume(value)
    }
}
