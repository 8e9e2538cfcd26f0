ghost use Rattle.std.specs.Prelude.{◌≡◌, ◌+◌, ◌-◌, ◌^◌, ◌<◌, ◌≤◌};

use descriptors::places::sector_of;
use devices::device::{SECTOR, Sector};
use std::ops::Range;

// Some bytes of a file that lie in one sector.
#[derive(Clone, PartialEq, Eq, Debug, Drop)]
pub(crate) struct FilePart {
    pub lsn: usize,
    // the first byte in the sector
    pub from: usize,
    // where they lie among the bytes that are asked for
    pub bytes: Range<usize>,
}

// The bytes of a file from a position on, part by part: as many as are asked for, but no more than its sectors hold.
#[derive(Drop)]
pub(crate) struct FileParts<'a> {
    descriptor: &'a Sector,
    position: usize,
    done: usize,
    wanted: usize,

    ghost within: { done ≤ wanted },
    ghost fits: { position + wanted < 2 ^ 64 },
}

impl<'a> FileParts<'a> {
    ghost use Rattle.content.specs.Parts.{PartsOf};

    pub fn of(descriptor: &'a Sector, position: usize, wanted: usize) -> FileParts<'a>
        requires { position + wanted < 2 ^ 64 }
        ensures of { PartsOf result descriptor.now position wanted }
        ensures first { result.done ≡ 0 }
    {
        FileParts {
            descriptor,
            position,
            done: 0,
            wanted,
        }
    }
}

impl<'a> Iterator for FileParts<'a> {
    ghost use Rattle.std.specs.Iterator.{at_most};
    ghost use Rattle.content.specs.Parts.{NextPart};

    type Item = FilePart;

    ghost next_gives = { NextPart };

    ghost remaining = { λ s. at_most (s.wanted - s.done) };

    fn next(&mut self) -> Option<FilePart> {
        let start = self.done;
        let left = self.wanted - start;
        if left == 0 {
            return None;
        }
        let at = self.position + start;
        let descriptor = self.descriptor;
        let lsn = sector_of(descriptor, at / SECTOR)?;
        let from = at % SECTOR;
        self.done = start + left.min(SECTOR - from);
        Some(FilePart {
            lsn,
            from,
            bytes: start..self.done,
        })
    }
}
