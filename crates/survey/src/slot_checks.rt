ghost use Rattle.std.specs.Prelude.{◌≡◌, length, MatchBool};
ghost use Rattle.layout.specs.Directory.{slot_name};
ghost use Rattle.layout.specs.Names.{marked, name_of};
ghost use Rattle.rules.specs.Rules.{StoredName, SlotRight};

use layout::names::is_name_byte;

// Whether 28 bytes store a lawful name.
pub fn is_stored_name(stored: &[u8]) -> bool
    requires { length stored.now ≡ 28 }
    ensures { MatchBool result (StoredName stored.now) (StoredName stored.now → ⊥) }
{
    let mut proper = false;
    for byte in stored {
        let letter = *byte % 128;
        if !is_name_byte(letter) {
            return false;
        }
        if letter != b'.' {
            proper = true;
        }
        if *byte >= 128 {
            return proper;
        }
    }
    false
}

// Whether a used slot has a lawful name, and byte 28 zero.
pub fn is_slot_right(slot: &[u8; 32]) -> bool
    ensures { MatchBool result (SlotRight slot.now) (SlotRight slot.now → ⊥) }
{
    slot[28] == 0 && is_stored_name(&slot[0..28])
}

// A stored name with zeros behind its last byte.
pub fn tidy_name(stored: &[u8]) -> [u8; 28]
    requires long { length stored.now ≡ 28 }
    requires lawful { StoredName stored.now }
    ensures { result ≡ slot_name (marked (name_of stored.now)) }
{
    let Some(last) = stored.iter().position(|byte| *byte >= 128) else {
        unreachable()
    };
    let mut name = [0u8; 28];
    name[..last + 1].copy_from_slice(&stored[..last + 1]);
    name
}
