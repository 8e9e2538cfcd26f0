ghost use Rattle.std.specs.Prelude.{◌≡◌, ◌^◌, ◌<◌, ◌≤◌, length};
ghost use Rattle.descriptors.specs.Created.{new_descriptor as created, new_shown};
ghost use Rattle.descriptors.specs.Shown.{shown, TidyEntries};
ghost use Rattle.descriptors.specs.Stored.{AllStorable};

use super::heading::Heading;
use super::segment_entries::write_segments;
use super::segment_list::SegmentList;
use layout::numbers::{put, to_bytes};

// The descriptor of a new file or directory, all its bytes.
pub fn new_descriptor(heading: &Heading, size: usize, segments: &SegmentList) -> [u8; 256]
    requires fits { size < 2 ^ 32 }
    requires storable { AllStorable segments.now }
    ensures is { result ≡ created heading.now size segments.now }
    ensures shows { shown result ≡ new_shown heading.now size segments.now }
    ensures tidy { TidyEntries result }
    ensures few { length segments.now ≤ 48 }
{
    let attribute = usize::from(heading.attribute);
    let owner = usize::from(heading.owner);
    let mut descriptor = [0u8; 256];
    put(&mut descriptor, 0, &to_bytes::<1>(attribute));
    put(&mut descriptor, 1, &to_bytes::<2>(owner));
    put(&mut descriptor, 3, &heading.modified);
    put(&mut descriptor, 8, &[1]);
    put(&mut descriptor, 9, &to_bytes::<4>(size));
    put(&mut descriptor, 13, &heading.created);
    write_segments(&mut descriptor, segments);
    descriptor
}
