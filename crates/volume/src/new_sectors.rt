ghost use Rattle.std.specs.Prelude.{◌≡◌, ◌*◌, ◌^◌, ◌<◌, ◌≤◌, length};
ghost use Rattle.layout.specs.Bytes.{over};
ghost use Rattle.layout.specs.Directory.{slot_name, slot_bytes};
ghost use Rattle.layout.specs.Names.{VolumeName};
ghost use Rattle.volume.specs.NewVolume.{new_identification, new_root, new_slots};

use super::plan::Plan;
use devices::device::{SECTOR, Sector};
use layout::bitmap::map_bytes;
use layout::descriptor::put_segment;
use layout::directory_entry::DirectoryEntry;
use layout::names::{HERE, UP, put_marked};
use layout::numbers::{put, to_bytes};
use layout::records::put_nth;
use layout::segment::Segment;
use layout::stored_slot::StoredSlot;

// The attribute of a new root: a directory that everyone may read, write and search.
pub const ROOT_ATTRIBUTE: u8 = 0xBF;

// LSN 0 of a new volume.
pub(crate) fn new_identification(plan: Plan, name: &[u8]) -> Sector
    requires { VolumeName name.now }
    ensures { result ≡ new_identification plan.total name.now }
{
    let mut sector = [0u8; SECTOR];
    put(&mut sector, 0x00, &to_bytes::<3>(plan.total));
    put(&mut sector, 0x04, &to_bytes::<2>(map_bytes(plan.total)));
    put(&mut sector, 0x06, &to_bytes::<2>(1));
    put(&mut sector, 0x08, &to_bytes::<3>(plan.root_lsn()));
    put(&mut sector, 0x0D, &[ROOT_ATTRIBUTE]);
    put_marked(&mut sector, 0x1F, name);
    sector
}

// The descriptor of a new root: a directory of 64 bytes in one sector.
pub(crate) fn new_root(plan: Plan) -> Sector
    ensures { result ≡ new_root plan.total }
{
    let mut sector = [0u8; SECTOR];
    put(&mut sector, 0, &[ROOT_ATTRIBUTE]);
    put(&mut sector, 8, &[1]);
    put(&mut sector, 9, &to_bytes::<4>(64));
    put_segment(
        &mut sector,
        0,
        &Segment {
            start: plan.slots_lsn(),
            len: 1,
        },
    );
    sector
}

// Writes the slot k of a sector: a name as it is stored, and the LSN of its descriptor.
fn put_slot(sector: &mut Sector, k: usize, stored: &[u8], lsn: usize)
    requires inside { k < 8 }
    requires short { length stored.now ≤ 28 }
    requires low { lsn < 2 ^ 24 }
    ensures { sector.new ≡ over (k * 32) (slot_bytes (slot_name stored.now) lsn) sector.old }
{
    let mut name = [0u8; 28];
    put(&mut name, 0, stored);
    put_nth::<DirectoryEntry>(sector, k, &StoredSlot { name, lsn });
}

// The slots of a new root: "." and "..", which both name the root.
pub(crate) fn new_slots(plan: Plan) -> Sector
    ensures { result ≡ new_slots plan.total }
{
    let mut sector = [0u8; SECTOR];
    put_slot(&mut sector, 0, &HERE, plan.root_lsn());
    put_slot(&mut sector, 1, &UP, plan.root_lsn());
    sector
}
