ghost use Rattle.std.specs.Prelude.{◌≡◌, ℕ, ◌+◌, ◌<◌, ◌≤◌, length, MatchBool, slice_index};
ghost use Rattle.layout.specs.Bytes.{over};
ghost use Rattle.layout.specs.Names.{name_byte, VolumeName, marked};

use super::numbers::put;

// "." and ".." as they are stored, bit 7 set on the last byte.
pub const HERE: [u8; 1] = *b"\xae";

pub const UP: [u8; 2] = *b".\xae";

// A letter, a digit, "_", "$" or ".".
pub fn is_name_byte(b: u8) -> bool
    ensures { result ≡ name_byte b }
{
    matches!(b, b'A'..=b'Z' | b'a'..=b'z' | b'0'..=b'9' | b'_' | b'$' | b'.')
}

// Whether these bytes can name a volume: 1 to 32 letters, digits, "_", "$" or ".".
pub fn is_volume_name(name: &[u8]) -> bool
    ensures { MatchBool result (VolumeName name.now) (VolumeName name.now → ⊥) }
{
    matches!(name.len(), 1..=32) && name.iter().all(|b| is_name_byte(*b))
}

// Writes a name as it is stored, with bit 7 set on its last byte.
pub fn put_marked(bytes: &mut [u8], at: usize, name: &[u8])
    requires inside { at + length name.now ≤ length bytes.old }
    requires some { 0 < length name.now }
    requires plain { (k : ℕ) → k < length name.now → slice_index name.now k < 128 }
    ensures { bytes.new ≡ over at (marked name.now) bytes.old }
{
    let last = name.len() - 1;
    put(bytes, at, name);
    bytes[at + last] = name[last] + 128;
}
