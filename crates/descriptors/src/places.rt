ghost use Rattle.std.specs.Prelude.{◌≡◌, ◌^◌, ◌<◌, length};
ghost use Rattle.std.specs.List.{slice_get};
ghost use Rattle.layout.specs.Descriptor.{segments, extent};
ghost use Rattle.descriptors.specs.Entries.{Used};

use super::segments::Segments;

// How many entries of a segment list come before the first unused one.
pub fn used_entries(descriptor: &[u8; 256]) -> usize
    ensures is { result ≡ length (segments descriptor.now) }
    ensures used { Used descriptor.now result }
{
    Segments::of(descriptor).count()
}

// How many sectors the segments have.
pub fn held_sectors(descriptor: &[u8; 256]) -> usize
    ensures is { result ≡ length (extent (segments descriptor.now)) }
    ensures few { result < 2 ^ 22 }
{
    Segments::of(descriptor).map(|segment| segment.len).sum()
}

// The i-th sector of a file.
pub fn sector_of(descriptor: &[u8; 256], i: usize) -> Option<usize>
    ensures { result ≡ slice_get (extent (segments descriptor.now)) i }
{
    let mut left = i;
    for segment in Segments::of(descriptor) {
        if left < segment.len {
            return Some(segment.start + left);
        }
        left -= segment.len;
    }
    None
}
