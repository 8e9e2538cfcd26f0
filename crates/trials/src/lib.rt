// Trials of the devices and of format: what they do on examples, byte by byte.

#![tactic(auto)]

ghost use Rattle.std.specs.Prelude.{◌≡◌, ℕ, ◌+◌, ◌*◌, ◌/◌, ◌%◌, ◌<◌, [], ◌∷◌, IfOk, vec_len, slice_index};

use std::alloc::{AllocError, Global};

pub mod new_volume;

// Bytes that tell their places: two that lie less than 251 places apart differ.
pub fn numbered(heap: Global, len: usize) -> Result<Vec<u8>, AllocError>
    ensures { IfOk result (λ v. (vec_len v ≡ len) × ((k : ℕ) → k < len → slice_index v.items k ≡ k % 251)) }
{
    (0..len).map(|place| (place % 251) as u8).collect(heap)
}

// The 256 bytes from an offset on, with zeros past the end.
pub fn sector_at(bytes: &[u8], from: usize) -> [u8; 256] {
    let mut sector = [0; 256];
    // cut, not skipped: a `skip` goes over every byte before the offset
    for (to, byte) in sector.iter_mut().zip(&bytes[from.min(bytes.len())..]) {
        *to = *byte;
    }
    sector
}

// Makes the 256 bytes from an offset on the same byte, as far as there are any.
pub fn fill_sector(bytes: &mut [u8], from: usize, byte: u8) {
    let from = from.min(bytes.len());
    for to in bytes[from..].iter_mut().take(256) {
        *to = byte;
    }
}

// The header of a tray.
pub fn header(tracks: u16, sides: u8, sectors: u8, interleave: u8) -> [u8; 8]
    ensures { result ≡ tracks / 256 ∷ tracks % 256 ∷ sides ∷ sectors ∷ interleave ∷ 0 ∷ 0 ∷ 0 ∷ [] }
{
    let [high, low] = tracks.to_be_bytes();
    [high, low, sides, sectors, interleave, 0, 0, 0]
}

// How many sectors a header tells of.
pub fn sectors_in(header: &[u8; 8]) -> usize
    ensures { result ≡ (slice_index header.now 0 * 256 + slice_index header.now 1) * slice_index header.now 2 * slice_index header.now 3 }
{
    let [high, low, sides, sectors, ..] = *header;
    usize::from(u16::from_be_bytes([high, low])) * usize::from(sides) * usize::from(sectors)
}

// A tray with some bad places. Sectors that lie less than 251 places apart have no byte in common at one offset.
pub fn tray_bytes(heap: Global, header: [u8; 8], bad: &[usize]) -> Result<Vec<u8>, AllocError> {
    let total = sectors_in(&header);
    let mut bytes = header.to_vec(heap)?;
    bytes.extend((0..total).map(|place| u8::from(bad.contains(&place))))?;
    for place in 0..total {
        bytes.extend((0..256).map(|at| ((place % 251 + at) % 251) as u8))?;
    }
    Ok(bytes)
}

#[cfg(test)]
mod tests;
