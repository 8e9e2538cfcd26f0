ghost use Rattle.std.specs.Prelude.{◌≡◌, ℕ, ◌<◌, ◌≤◌, length, MatchBool};
ghost use Rattle.rules.specs.Nodes.{is_directory as directory_in};
ghost use Rattle.rules.specs.Rules.{Tidy, SegmentsWithin, SizeRight, Linked};
ghost use Rattle.survey.specs.Visiting.{DescriptorAnswer};

use super::bounds::Bounds;
use descriptors::places::{held_sectors, used_entries};
use descriptors::segments::Segments;
use layout::descriptor::{SEGMENTS, segment_at};
use layout::numbers::number_at;
use layout::segment::Segment;
use rules::rule::Rule;

// Whether a descriptor is a directory's: bit 7 of its attribute is set.
pub fn is_directory(descriptor: &[u8; 256]) -> bool
    ensures { result ≡ directory_in descriptor.now }
{
    number_at(descriptor, 0, 1) / 128 % 2 == 1
}

// Whether no used segment entry follows an unused one, and the unused ones are zero.
pub fn is_tidy(descriptor: &[u8; 256]) -> bool
    ensures { MatchBool result (Tidy descriptor.now) (Tidy descriptor.now → ⊥) }
{
    // by numbers, since an unused entry is none of the list's segments
    for k in used_entries(descriptor)..SEGMENTS {
        let Segment { start: 0, len: 0 } = segment_at(descriptor, k) else {
            return false;
        };
    }
    true
}

// Whether every segment lies within bounds.
pub fn segments_within(descriptor: &[u8; 256], bounds: Bounds) -> bool
    ensures { MatchBool result (SegmentsWithin descriptor.now bounds.low bounds.high) (SegmentsWithin descriptor.now bounds.low bounds.high → ⊥) }
{
    Segments::of(descriptor).all(|segment| bounds.contains_segment(segment))
}

// Whether the segments hold the size, and a directory's size is a number of slots, two at least.
pub fn is_size_right(descriptor: &[u8; 256]) -> bool
    ensures { MatchBool result (SizeRight descriptor.now) (SizeRight descriptor.now → ⊥) }
{
    let size = number_at(descriptor, 9, 4);
    let true = size <= 256 * held_sectors(descriptor) else {
        return false;
    };
    !is_directory(descriptor) || size % 32 == 0 && size >= 64
}

// Whether a file has one link.
pub fn is_linked(descriptor: &[u8; 256]) -> bool
    ensures { MatchBool result (Linked descriptor.now) (Linked descriptor.now → ⊥) }
{
    is_directory(descriptor) || number_at(descriptor, 8, 1) == 1
}

// Asks of a descriptor what can be asked by its own bytes: the first rule that it breaks.
pub fn check_descriptor(descriptor: &[u8; 256], bounds: Bounds) -> Result<(), Rule>
    ensures { DescriptorAnswer descriptor.now bounds.low bounds.high result }
{
    let true = is_linked(descriptor) else {
        return Err(Rule::F);
    };
    let true = is_tidy(descriptor) else {
        return Err(Rule::C);
    };
    let true = segments_within(descriptor, bounds) else {
        return Err(Rule::B);
    };
    let true = is_size_right(descriptor) else {
        return Err(Rule::D);
    };
    Ok(())
}
