ghost use Rattle.std.specs.Prelude.{◌≡◌, ◌^◌, ◌<◌, ◌≤◌, length, sum_by};
ghost use Rattle.std.specs.Iterator.{YieldsFirst, item_count};
ghost use Rattle.layout.specs.Descriptor.{segments};
ghost use Rattle.descriptors.specs.Stored.{AllStorable};

use layout::descriptor::{SEGMENTS, segment_at};
use layout::segment::Segment;
use std::marker::Model;

// The used segments of a descriptor, in their order: those that are left, before the first unused entry.
#[derive(Drop)]
pub struct Segments<'a> {
    descriptor: &'a [u8; 256],
    next: usize,
}

impl<'a> Model for Segments<'a> {
    ghost use Rattle.std.specs.Prelude.{◌-◌, ◌≤◌, List};
    ghost use Rattle.layout.specs.declared.segment.Segment.{Segment};
    ghost use Rattle.layout.specs.Descriptor.{used};

    ghost Value = { List Segment };

    ghost view = { λ it. used it.descriptor.now it.next (48 - it.next) };

    ghost invariant = { λ it. it.next ≤ 48 };
}

impl<'a> Segments<'a> {
    // All segments of a descriptor.
    pub fn of(descriptor: &'a [u8; 256]) -> Segments<'a>
        ensures are { result ≡ segments descriptor.now }
        ensures storable { AllStorable result }
        ensures few { length result ≤ 48 }
        ensures small { sum_by (λ s. s.len) result < 2 ^ 22 }
    {
        // without this call the proof is not told that each byte is below 256
        let _read = usize::from(descriptor[0]);
        Segments {
            descriptor,
            next: 0,
        }
    }
}

impl<'a> Iterator for Segments<'a> {
    type Item = Segment;

    ghost next_gives = { YieldsFirst (λ left. left) };

    ghost remaining = { item_count (λ left. left) };

    fn next(&mut self) -> Option<Segment> {
        if self.next == SEGMENTS {
            return None;
        }
        let segment = segment_at(self.descriptor, self.next);
        if segment.len == 0 {
            return None;
        }
        self.next += 1;
        Some(segment)
    }
}
