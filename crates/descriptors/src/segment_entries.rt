ghost use Rattle.std.specs.Prelude.{◌≡◌, ◌≤◌, length};
ghost use Rattle.layout.specs.Bytes.{over};
ghost use Rattle.layout.specs.Descriptor.{segments as segments_in};
ghost use Rattle.descriptors.specs.Shown.{shown, with_segments, TidyEntries};
ghost use Rattle.descriptors.specs.Stored.{AllStorable, stored};

use super::segment_list::SegmentList;
use super::segments::Segments;
use layout::descriptor::put_segment;

// The segments of a descriptor.
pub fn read_segments(descriptor: &[u8; 256]) -> SegmentList
    ensures are { result ≡ segments_in descriptor.now }
    ensures few { length result ≤ 48 }
    ensures storable { AllStorable result }
{
    let mut segments = SegmentList::empty();
    for segment in Segments::of(descriptor) {
        segments.push(segment);
    }
    segments
}

// Writes a segment list into a descriptor, all 48 entries.
pub fn write_segments(descriptor: &mut [u8; 256], segments: &SegmentList)
    requires { AllStorable segments.now }
    ensures laid { descriptor.new ≡ over 16 (stored segments.now) descriptor.old }
    ensures shows { shown descriptor.new ≡ with_segments segments.now (shown descriptor.old) }
    ensures tidy { TidyEntries descriptor.new }
    ensures few { length segments.now ≤ 48 }
{
    let entries = segments.entries();
    for (k, segment) in entries.iter().enumerate() {
        put_segment(descriptor, k, segment);
    }
}
