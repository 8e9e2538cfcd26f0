ghost use Rattle.std.specs.Prelude.{◌+◌, ◌<◌, ◌≤◌, ◌↔◌, IsTrue};

use layout::segment::Segment;

// What lies behind the map and within the volume: behind the sector `low`, and below `high`.
#[derive(Clone, Copy, PartialEq, Eq, Debug)]
pub struct Bounds {
    pub low: usize,
    pub high: usize,
}

impl Bounds {
    // Whether a sector lies within.
    pub fn contains(self, lsn: usize) -> bool
        ensures { IsTrue result ↔ ((self.low < lsn) × (lsn < self.high)) }
    {
        self.low < lsn && lsn < self.high
    }

    // Whether a segment lies within.
    pub(crate) fn contains_segment(self, segment: Segment) -> bool
        ensures { IsTrue result ↔ ((self.low < segment.start) × (segment.start + segment.len ≤ self.high)) }
    {
        self.low < segment.start
            && segment.start <= self.high
            && segment.len <= self.high - segment.start
    }
}
