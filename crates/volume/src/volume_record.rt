ghost use Rattle.std.specs.Prelude.{◌≡◌, ◌<◌, ◌≤◌};
ghost use Rattle.paths.specs.Paths.{open_count};

use paths::open_paths::OpenPaths;

// The record of a volume that was made or surveyed: every call on the volume takes it and keeps it up.
// Only this crate makes one, so that none is about sectors that were never looked at.
#[derive(Drop)]
pub struct Volume {
    total: usize,
    root: usize,
    allocation: usize,
    paths: OpenPaths,
    ghost least: { 16 ≤ total },
    ghost most: { total ≤ 65536 },
    ghost inside: { root < total },
    ghost some: { 1 ≤ allocation },
    ghost small: { allocation ≤ 255 },
}

impl Volume {
    // The record of a volume on which no path was ever opened.
    pub(crate) fn unopened(total: usize, root: usize, allocation: usize) -> Volume
        requires whole { (16 ≤ total) × (total ≤ 65536) × (root < total) }
        requires unit { (1 ≤ allocation) × (allocation ≤ 255) }
        ensures { (result.total ≡ total) × (result.root ≡ root) × (result.allocation ≡ allocation) × (open_count result.paths.places ≡ 0) × (result.paths.opened ≡ 0) }
    {
        Volume {
            total,
            root,
            allocation,
            paths: OpenPaths::none(),
        }
    }

    // How many sectors the volume has.
    pub fn total(&self) -> usize
        ensures { result ≡ self.now.total }
    {
        self.total
    }

    // The LSN of the root's descriptor.
    pub fn root(&self) -> usize
        ensures { result ≡ self.now.root }
    {
        self.root
    }

    // The segment allocation size: how many sectors a new segment should have at least.
    pub fn allocation(&self) -> usize
        ensures { result ≡ self.now.allocation }
    {
        self.allocation
    }

    // How many paths are open.
    pub fn open(&self) -> usize
        ensures is { result ≡ open_count self.now.paths.places }
        ensures few { result ≤ 16 }
    {
        self.paths.count()
    }

    // How many paths were ever opened.
    pub fn opened(&self) -> u32
        ensures { result ≡ self.now.paths.opened }
    {
        self.paths.opened()
    }
}
