ghost use Rattle.std.specs.Prelude.{◌≡◌, ℕ, ◌+◌, ◌*◌, ◌^◌, ◌<◌};
ghost use Rattle.layout.specs.Bytes.{over};
ghost use Rattle.layout.specs.Descriptor.{segment as segment_in, segment_bytes};

use super::records::{nth, put_nth};
use super::segment::Segment;
use super::segment_entry::SegmentEntry;

// Where the segment list of a descriptor begins, and how many entries it has: it ends with the sector.
pub const SEGMENTS_AT: usize = 16;

pub const SEGMENTS: usize = 48;

// The entry k of a descriptor's segment list.
pub fn segment_at(descriptor: &[u8; 256], k: usize) -> Segment
    requires { k < 48 }
    ensures is { result ≡ segment_in descriptor.now k }
    ensures low { result.start < 2 ^ 24 }
    ensures short { result.len < 2 ^ 16 }
{
    nth::<SegmentEntry>(&descriptor[SEGMENTS_AT..256], k)
}

// Writes the entry k of a descriptor's segment list.
pub fn put_segment(descriptor: &mut [u8; 256], k: usize, segment: &Segment)
    requires few { k < 48 }
    requires low { segment.now.start < 2 ^ 24 }
    requires short { segment.now.len < 2 ^ 16 }
    ensures { descriptor.new ≡ over (16 + k * 5) (segment_bytes segment.now) descriptor.old }
{
    put_nth::<SegmentEntry>(&mut descriptor[SEGMENTS_AT..256], k, segment);
}
