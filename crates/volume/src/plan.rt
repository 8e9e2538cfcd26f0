ghost use Rattle.std.specs.Prelude.{◌≡◌, ◌<◌, ◌≤◌};
ghost use Rattle.layout.specs.Map.{map_sectors};
ghost use Rattle.volume.specs.NewVolume.{root_of, slots_of};
ghost use Rattle.volume.specs.Formatting.{part_of};

use super::fault::Part;
use layout::bitmap::map_length;

// The plan of a new volume of some sectors: its map from LSN 1 on, the root's descriptor behind the map, and the root's slots behind that.
// That a device has so many sectors stands in the clauses of those who read or write it: a device that is written can't lie in a value that is copied.
#[derive(Clone, Copy, PartialEq, Eq, Debug)]
pub(crate) struct Plan {
    pub(crate) total: usize,
    ghost least: { 16 ≤ total },
    ghost most: { total ≤ 65536 },
    ghost inside: { slots_of total < total },
}

impl Plan {
    // How many sectors the map fills.
    pub(crate) fn map_length(self) -> usize
        ensures { result ≡ map_sectors self.total }
    {
        map_length(self.total)
    }

    // The LSN of the root's descriptor.
    pub(crate) fn root_lsn(self) -> usize
        ensures { result ≡ root_of self.total }
    {
        self.map_length() + 1
    }

    // The LSN of the root's slots, the last sector that a new volume has written.
    pub(crate) fn slots_lsn(self) -> usize
        ensures { result ≡ slots_of self.total }
    {
        self.map_length() + 2
    }

    // The part of the volume that a sector belongs to.
    pub(crate) fn part_of(self, lsn: usize) -> Part
        ensures { result ≡ part_of self.total lsn }
    {
        if lsn == 0 {
            Part::Identification
        } else if lsn <= self.map_length() {
            Part::Map
        } else if lsn == self.root_lsn() {
            Part::Descriptor
        } else {
            Part::Directory
        }
    }
}
