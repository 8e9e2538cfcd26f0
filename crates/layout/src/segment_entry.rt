ghost use Rattle.std.specs.Prelude.{◌≡◌, ◌^◌, ◌<◌, ◌==◌};
ghost use Rattle.layout.specs.Bytes.{number};
ghost use Rattle.layout.specs.Descriptor.{segment_of, segment_bytes};
ghost use borrow.Author.Rules.{rules};
ghost use Rattle.layout.specs.Bytes;

use super::numbers::to_bytes;
use super::records::Record;
use super::segment::Segment;

// The entry of a segment list, five bytes: the starting LSN in three, the size in sectors in two. Size 0 is unused.
pub struct SegmentEntry;

impl Record for SegmentEntry {
    const WIDTH: usize = 5;

    type Value = Segment;

    ghost WIDTH = { 5 };

    ghost lawful = { λ s. (s.start < 2 ^ 24) × (s.len < 2 ^ 16) };

    ghost value_of = { segment_of };

    ghost bytes_of = { segment_bytes };

    ghost is_unused = { λ xs. ((segment_of xs).len == 0) };

    ghost some = { Prim.search rules };

    ghost wide = { unfold Bytes.bytes in Prim.search rules };

    ghost back = { unfold segment_of number Bytes.bytes in Prim.search rules };

    fn unused(bytes: &[u8]) -> bool {
        Self::read(bytes).len == 0
    }

    fn read(bytes: &[u8]) -> Segment {
        let [a, b, c, hi, lo] = bytes else {
            unreachable()
        };
        Segment {
            start: u32::from_be_bytes([0, *a, *b, *c]) as usize,
            len: usize::from(u16::from_be_bytes([*hi, *lo])),
        }
    }

    fn write(value: &Segment, bytes: &mut [u8]) {
        let (start, len) = bytes.split_at_mut(3);
        start.copy_from_slice(&to_bytes::<3>(value.start));
        len.copy_from_slice(&to_bytes::<2>(value.len));
    }
}
