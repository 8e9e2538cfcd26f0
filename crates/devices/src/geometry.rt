ghost use Rattle.std.specs.Prelude.{◌≡◌, ◌*◌, ◌<◌, ◌≤◌};
ghost use Rattle.devices.specs.Geometry.{Suits, Placed};

// The shape of a tray. Its sectors lie track by track, and in a track by the interleave:
// of two sectors with LSNs one after the other, the second lies `interleave` places further on, round the track.
#[derive(Clone, Copy, PartialEq, Eq, Debug)]
pub struct Geometry {
    pub tracks: usize,
    pub sides: usize,
    pub sectors_per_track: usize,
    pub interleave: usize,
    ghost tall: { tracks < 65536 },
    ghost faces: { (0 < sides) × (sides ≤ 2) },
    ghost wide: { (0 < sectors_per_track) × (sectors_per_track ≤ 64) },
    // with a common factor two sectors of a track would share a place
    ghost stride: { Suits interleave sectors_per_track },
}

impl Geometry {
    // How many sectors there are.
    pub fn total(&self) -> usize
        ensures { result ≡ self.now.tracks * self.now.sides * self.now.sectors_per_track }
    {
        self.tracks * self.sides * self.sectors_per_track
    }

    // The place of a sector, among the states as among the sectors. No two sectors share one.
    pub fn place(&self, lsn: usize) -> Option<usize>
        ensures { Placed (self.now.tracks * self.now.sides * self.now.sectors_per_track) self.now.sectors_per_track self.now.interleave lsn result }
    {
        let true = lsn < self.total() else {
            return None;
        };
        let across = self.sectors_per_track;
        Some(lsn / across * across + lsn % across * self.interleave % across)
    }
}
