ghost use Rattle.std.specs.Prelude.{◌≡◌, ◌^◌, ◌<◌, length, ◌==◌, slice_index};
ghost use Rattle.layout.specs.Directory.{stored_slot, slot_bytes};
ghost use Rattle.layout.specs.Slots.{length-slot, slot_back};
ghost use Rattle.std.proofs.Common.{rules};

use super::numbers::to_bytes;
use super::records::Record;
use super::stored_slot::StoredSlot;

// The entry of a directory, 32 bytes: the name in 28, one zero, the LSN of the descriptor in three. A first byte of 0 is unused.
pub struct DirectoryEntry;

impl Record for DirectoryEntry {
    const WIDTH: usize = 32;

    type Value = StoredSlot;

    ghost WIDTH = { 32 };

    ghost lawful = { λ s. (length s.name ≡ 28) × (s.lsn < 2 ^ 24) };

    ghost value_of = { stored_slot };

    ghost bytes_of = { λ s. slot_bytes s.name s.lsn };

    ghost is_unused = { λ xs. (slice_index xs 0 == 0) };

    ghost some = { Prim.search rules };

    ghost wide = { λ v h. length-slot v.name v.lsn h.0 };

    ghost back = { λ v h. slot_back v.name v.lsn h.0 h.1 };

    fn unused(bytes: &[u8]) -> bool {
        bytes[0] == 0
    }

    fn read(bytes: &[u8]) -> StoredSlot {
        let mut name = [0u8; 28];
        name.copy_from_slice(&bytes[0..28]);
        let [.., a, b, c] = bytes else { unreachable() };
        StoredSlot {
            name,
            lsn: u32::from_be_bytes([0, *a, *b, *c]) as usize,
        }
    }

    fn write(value: &StoredSlot, bytes: &mut [u8]) {
        let (name, rest) = bytes.split_at_mut(28);
        name.copy_from_slice(&value.name);
        let (zero, lsn) = rest.split_at_mut(1);
        zero.copy_from_slice(&[0]);
        lsn.copy_from_slice(&to_bytes::<3>(value.lsn));
    }
}
