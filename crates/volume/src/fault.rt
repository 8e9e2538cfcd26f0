ghost use Rattle.std.specs.Prelude.{◌≡◌, Some, Result};
ghost use Rattle.volume.specs.Faults.{as_volume, carried, layer_word, refusal_number, number_of, place_of, layer_of};
ghost use Rattle.volume.specs.Surveying.{part_read, refusal_for};
ghost use Rattle.volume.specs.declared.fault.Part.{Part};
ghost use Rattle.volume.specs.declared.fault.Reading.{Reading};

use devices::device::DeviceFault;
use rules::rule::Rule;
use std::fmt;
use survey::finding::{Finding, Reading as SurveyReading};

// The layers of the library, the lowest first. A refusal names the one that it first came from.
#[derive(Clone, Copy, PartialEq, Eq, Debug)]
pub enum Layer {
    Devices,
    Volume,
    Files,
    Pathlists,
}

// The part of a volume that was being read when a device refused.
#[derive(Clone, Copy, PartialEq, Eq, Debug)]
pub enum Part {
    Identification,
    Map,
    Descriptor,
    Directory,
    // any other sector, for its goodness alone
    Sector,
}

// The volume layer's own refusals, with their numbers.
#[derive(Clone, Copy, PartialEq, Eq, Debug)]
pub enum VolumeRefusal {
    // the marks or the waiting list of a survey are shorter than the volume
    WorkLists = 19,
    // the arguments of format or of a survey are not lawful
    Arguments = 20,
    // a rule of a sound volume is broken
    Broken = 22,
}

// A device's refusal, with the part that was being read.
#[derive(Clone, Copy, PartialEq, Eq, Debug)]
pub struct Reading {
    pub part: Part,
    pub fault: DeviceFault,
}

// A refusal of the volume layer: its own, with its place, or a device's, whole.
#[derive(Clone, Copy, PartialEq, Eq, Debug)]
pub enum VolumeFault {
    Device(Reading),
    Refused {
        refusal: VolumeRefusal,
        place: usize,
    },
    Broken {
        rule: Rule,
        sector: usize,
    },
}

// The refusal of arguments that are not lawful.
pub(crate) const UNLAWFUL: VolumeFault = VolumeFault::Refused {
    refusal: VolumeRefusal::Arguments,
    place: 0,
};

impl Layer {
    // The name of the layer in a refusal's line.
    pub fn name(self) -> &'static str
        ensures { result.now ≡ layer_word self }
    {
        match self {
            Layer::Devices => "devices",
            Layer::Volume => "volume",
            Layer::Files => "files",
            Layer::Pathlists => "pathlists",
        }
    }
}

impl fmt::Display for Layer {
    ghost output = { λ l. Some (layer_word l) };

    fn fmt<W: fmt::Write>(&self, f: &mut fmt::Formatter<W>) -> fmt::Result {
        f.write_str(self.name())
    }
}

impl VolumeRefusal {
    pub fn number(self) -> u8
        ensures { result ≡ refusal_number self }
    {
        self as u8
    }
}

impl VolumeFault {
    pub fn number(self) -> u8
        ensures { result ≡ number_of self }
    {
        match self {
            VolumeFault::Device(_) => DeviceFault::NUMBER,
            VolumeFault::Refused { refusal, place: _ } => refusal.number(),
            VolumeFault::Broken { rule: _, sector: _ } => VolumeRefusal::Broken.number(),
        }
    }

    // A sector, for a device's refusal and for a broken rule.
    pub fn place(self) -> usize
        ensures { result ≡ place_of self }
    {
        match self {
            VolumeFault::Device(reading) => reading.fault.lsn,
            VolumeFault::Refused { refusal: _, place } => place,
            VolumeFault::Broken { rule: _, sector } => sector,
        }
    }

    // The layer that the refusal first came from.
    pub fn layer(self) -> Layer
        ensures { result ≡ layer_of self }
    {
        match self {
            VolumeFault::Device(_) => Layer::Devices,
            VolumeFault::Refused {
                refusal: _,
                place: _,
            } => Layer::Volume,
            VolumeFault::Broken { rule: _, sector: _ } => Layer::Volume,
        }
    }
}

impl From<Reading> for VolumeFault {
    ghost from_gives = { λ x y. y ≡ as_volume x };

    fn from(value: Reading) -> VolumeFault {
        VolumeFault::Device(value)
    }
}

// The part of a volume that a survey was reading.
impl From<SurveyReading> for Part {
    ghost from_gives = { λ x y. y ≡ part_read x };

    fn from(value: SurveyReading) -> Part {
        match value {
            SurveyReading::Descriptor => Part::Descriptor,
            SurveyReading::Directory => Part::Directory,
            SurveyReading::Map => Part::Map,
            SurveyReading::Sector => Part::Sector,
        }
    }
}

// What ends a survey, as a refusal of the volume.
impl From<Finding> for VolumeFault {
    ghost from_gives = { λ x y. y ≡ refusal_for x };

    fn from(value: Finding) -> VolumeFault {
        match value {
            Finding::Broken { rule, sector } => VolumeFault::Broken { rule, sector },
            Finding::Unread { reading, fault } => VolumeFault::Device(Reading {
                part: Part::from(reading),
                fault,
            }),
        }
    }
}

// Says which part was being read, so that `?` can carry a device's refusal up.
pub trait During<T>: Sized {
    ghost faulted: { Self → Part → Result T Reading };

    fn during(self, part: Part) -> Result<T, Reading>
        ensures { result ≡ faulted self part };
}

impl<T> During<T> for Result<T, DeviceFault> {
    ghost faulted = { carried };

    fn during(self, part: Part) -> Result<T, Reading> {
        self.map_err(|fault| Reading { part, fault })
    }
}
