ghost use Rattle.std.specs.Prelude.{◌≡◌};
ghost use Rattle.console.specs.Summaries.{IdentificationFields, RootFields, Summarized};

use devices::device::{Device, Sector};
use files::call_fault::CallFault;
use layout::attribute::Attribute;
use layout::descriptor::segment_at;
use layout::directory_entry::DirectoryEntry;
use layout::numbers::number_at;
use layout::records::nth;
use layout::segment::Segment;
use layout::stored_slot::StoredSlot;
use volume::count::clear_sectors;
use volume::fault::Part;
use volume::sectors::load;
use volume::volume_record::Volume;

// The fields of an identification sector.
#[derive(Clone, Copy, PartialEq, Eq, Debug)]
pub struct Identification {
    pub total: usize,
    pub map_bytes: usize,
    pub cluster_size: usize,
    pub root: usize,
    pub attribute: Attribute,
    pub name: [u8; 32],
}

// The fields of a descriptor that a new volume sets.
#[derive(Clone, Copy, PartialEq, Eq, Debug)]
pub struct RootDescriptor {
    pub attribute: Attribute,
    pub link_count: usize,
    pub size: usize,
    pub segment: Segment,
}

// What the sectors of a new volume hold, as they are read back.
#[derive(Clone, Copy, PartialEq, Eq, Debug)]
pub struct Summary {
    pub identification: Identification,
    pub clear: usize,
    pub root: RootDescriptor,
    pub here: StoredSlot,
    pub up: StoredSlot,
}

#[tactic(auto, unfolding(layout::specs::Bytes::number))]
fn identification_of(sector: &Sector) -> Identification
    ensures { IdentificationFields sector.now result }
{
    let mut name = [0u8; 32];
    name.copy_from_slice(&sector[0x1F..0x3F]);
    Identification {
        total: number_at(sector, 0x00, 3),
        map_bytes: number_at(sector, 0x04, 2),
        cluster_size: number_at(sector, 0x06, 2),
        root: number_at(sector, 0x08, 3),
        attribute: Attribute(sector[0x0D]),
        name,
    }
}

#[tactic(auto, unfolding(layout::specs::Bytes::number))]
fn root_of(sector: &Sector) -> RootDescriptor
    ensures { RootFields sector.now result }
{
    RootDescriptor {
        attribute: Attribute(sector[0]),
        link_count: number_at(sector, 8, 1),
        size: number_at(sector, 9, 4),
        segment: segment_at(sector, 0),
    }
}

// Reads back what a new volume wrote. Each of its sectors is read once.
pub fn summarize<D: Device>(device: &D, volume: &Volume) -> Result<Summary, CallFault>
    ensures { Summarized (D.Device.meaning device.now) volume.now result }
{
    let identification = identification_of(&load(device, 0, Part::Identification)?);
    let clear = clear_sectors(device, volume)?;
    let root = root_of(&load(device, volume.root(), Part::Descriptor)?);
    let slots = load(device, root.segment.start, Part::Directory)?;
    Ok(Summary {
        identification,
        clear,
        root,
        here: nth::<DirectoryEntry>(&slots, 0),
        up: nth::<DirectoryEntry>(&slots, 1),
    })
}
