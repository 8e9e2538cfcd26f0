ghost use Rattle.std.specs.Prelude.{◌≡◌, ◌+◌, ◌^◌, ◌<◌, ◌≤◌, [], ◌∷◌, ◌++◌, length, take, drop, slice_index_or};
ghost use Rattle.layout.specs.Descriptor.{extent};
ghost use Rattle.descriptors.specs.Cuts.{kept as kept_of, freed as freed_of};
ghost use Rattle.descriptors.specs.Lists.{nowhere, last_of, lengthened};
ghost use Rattle.descriptors.specs.Stored.{AllStorable, entries_of};

use layout::descriptor::SEGMENTS;
use layout::segment::Segment;
use std::marker::Model;

// A segment list in memory: the first `count` of 48 places. Those behind them are as an unused entry.
// The places are fixed, and no Vec, since the calls of the library use no heap and a list is copied as a whole.
#[derive(Clone, Copy, PartialEq, Eq, Debug)]
pub struct SegmentList {
    items: [Segment; 48],
    count: usize,
}

impl Model for SegmentList {
    ghost use Rattle.std.specs.Prelude.{List, length, take};
    ghost use Rattle.std.proofs.Common.{ap₂};
    ghost use Rattle.layout.specs.declared.segment.Segment.{Segment};
    ghost use Rattle.descriptors.specs.Padded.{IsPadded, length_listed, entries_are};
    ghost use Rattle.descriptors.specs.Stored.{entries_of};

    ghost Value = { List Segment };

    ghost view = { λ l. take l.count l.items };

    ghost invariant = { λ l. IsPadded l.items l.count };

    ghost inverse = { λ ss. record { items = entries_of ss; count = length ss } };

    ghost inverse_ok = { λ l h. ap₂ (λ items count. record { items = items; count = count }) (entries_are l.items l.count h) (length_listed l.items l.count h) };
}

impl SegmentList {
    // A list of no segments.
    pub fn empty() -> SegmentList
        ensures { result ≡ [] }
    {
        SegmentList {
            items: [Segment { start: 0, len: 0 }; SEGMENTS],
            count: 0,
        }
    }

    // How many segments there are.
    pub fn len(&self) -> usize
        ensures is { result ≡ length self.now }
        ensures few { result ≤ 48 }
    {
        self.count
    }

    // The segments.
    pub fn as_slice(&self) -> &[Segment]
        ensures are { result.now ≡ self.now }
        ensures few { length result.now ≤ 48 }
    {
        &self.items[..self.count]
    }

    // The segments, and then unused entries.
    pub(crate) fn entries(&self) -> &[Segment; 48]
        ensures are { result.now ≡ entries_of self.now }
        ensures few { length self.now ≤ 48 }
    {
        &self.items
    }

    // The k-th segment.
    pub fn segment(&self, k: usize) -> Segment
        requires { k < length self.now }
        ensures is { result ≡ slice_index_or self.now k nowhere }
        ensures few { length self.now ≤ 48 }
    {
        self.as_slice()[k]
    }

    // One segment more, behind the last.
    pub fn push(&mut self, segment: Segment)
        requires { length self.old < 48 }
        ensures { self.new ≡ self.old ++ segment ∷ [] }
    {
        self.items[self.count] = segment;
        self.count += 1;
    }

    // The last segment has `more` sectors more.
    pub fn lengthen(&mut self, more: usize)
        requires some { 0 < length self.old }
        requires fits { (last_of self.old).len + more < 65536 }
        ensures is { self.new ≡ lengthened self.old more }
        ensures few { length self.new ≤ 48 }
    {
        let last = self.count - 1;
        self.items[last].len += more;
    }

    // How many sectors the segments have.
    // That all can be stored is asked here and of `keep`, and is no fact of every list, since `push` takes any segment.
    pub fn sectors(&self) -> usize
        requires { AllStorable self.now }
        ensures is { result ≡ length (extent self.now) }
        ensures few { result < 2 ^ 22 }
        ensures short { length self.now ≤ 48 }
    {
        self.as_slice().iter().map(|segment| segment.len).sum()
    }

    // The segments of the first n sectors.
    fn first(&self, n: usize) -> SegmentList
        ensures { result ≡ kept_of n self.now }
    {
        let mut segments = SegmentList::empty();
        let mut left = n;
        for segment in self.as_slice() {
            if left == 0 {
                return segments;
            }
            let len = segment.len.min(left);
            segments.push(Segment {
                start: segment.start,
                len,
            });
            left -= len;
        }
        segments
    }

    // The runs of the sectors behind the first n.
    fn behind(&self, n: usize) -> SegmentList
        requires { AllStorable self.now }
        ensures { result ≡ freed_of n self.now }
    {
        let mut runs = SegmentList::empty();
        let mut left = n;
        for segment in self.as_slice() {
            if left < segment.len {
                runs.push(Segment {
                    start: segment.start + left,
                    len: segment.len - left,
                });
            }
            left = left.saturating_sub(segment.len);
        }
        runs
    }

    // Keeps the first n sectors, and answers the runs that this frees.
    pub fn keep(&mut self, n: usize) -> SegmentList
        requires { AllStorable self.old }
        ensures kept { self.new ≡ kept_of n self.old }
        ensures freed { result ≡ freed_of n self.old }
        ensures few { length self.new ≤ 48 }
        ensures few_freed { length result ≤ 48 }
        ensures first { extent self.new ≡ take n (extent self.old) }
        ensures behind { extent result ≡ drop n (extent self.old) }
        ensures all { extent self.old ≡ extent self.new ++ extent result }
        ensures storable { AllStorable self.new }
    {
        let runs = self.behind(n);
        *self = self.first(n);
        runs
    }
}
