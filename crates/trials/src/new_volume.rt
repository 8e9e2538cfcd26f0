ghost use Rattle.std.specs.Prelude.{◌+◌, ◌*◌, ◌<◌, ◌≤◌};

// A volume that format is to make: its sectors, its name, and those of its sectors that are bad.
// What each byte should then be is said here from the layout alone, with no code of format's.
#[derive(Drop)]
pub struct NewVolume<'a> {
    pub total: usize,
    pub name: &'a [u8],
    pub bad: &'a [usize],
    ghost most: { total ≤ 65536 },
}

// How many sectors the map of a volume fills: each holds 2,048 bits.
pub fn map_sectors(total: usize) -> usize
    requires { total ≤ 65536 }
    ensures { (total ≤ result * 2048) × (result * 2048 < total + 2048) }
{
    total.div_ceil(2048)
}

impl NewVolume<'_> {
    // The byte at an offset, if format writes its sector.
    pub fn byte(&self, offset: usize) -> Option<u8> {
        let map = map_sectors(self.total);
        let lsn = offset / 256;
        let at = offset % 256;
        if lsn == 0 {
            Some(self.identification(at))
        } else if lsn <= map {
            Some(self.map((lsn - 1) * 2048 + at * 8))
        } else if lsn == map + 1 {
            Some(self.root(at))
        } else if lsn == map + 2 {
            Some(self.slots(at))
        } else {
            None
        }
    }

    fn identification(&self, at: usize) -> u8 {
        let root = map_sectors(self.total) + 1;
        match at {
            0..=2 => self.total.to_be_bytes()[at + 5],
            4..=5 => self.total.div_ceil(8).to_be_bytes()[at + 2],
            7 => 1,
            8..=10 => root.to_be_bytes()[at - 3],
            13 => 0xBF,
            31..=62 => self.named(at - 31),
            _ => 0,
        }
    }

    fn named(&self, place: usize) -> u8 {
        match self.name.get(place..) {
            Some([last]) => *last | 0x80,
            Some([byte, ..]) => *byte,
            _ => 0,
        }
    }

    // The byte of the map whose highest bit is that of a sector.
    fn map(&self, first: usize) -> u8
        requires { first < 100000 }
    {
        (0..8)
            .filter(|k| self.is_taken(first + *k))
            .fold(0, |byte, k| byte | (0x80u8 >> k))
    }

    fn is_taken(&self, lsn: usize) -> bool {
        lsn <= map_sectors(self.total) + 2 || lsn >= self.total || self.bad.contains(&lsn)
    }

    fn root(&self, at: usize) -> u8 {
        let slots = map_sectors(self.total) + 2;
        match at {
            0 => 0xBF,
            8 => 1,
            12 => 64,
            16..=18 => slots.to_be_bytes()[at - 11],
            20 => 1,
            _ => 0,
        }
    }

    fn slots(&self, at: usize) -> u8 {
        let root = map_sectors(self.total) + 1;
        match at {
            0 | 33 => 0xAE,
            32 => 0x2E,
            29..=31 => root.to_be_bytes()[at - 24],
            61..=63 => root.to_be_bytes()[at - 56],
            _ => 0,
        }
    }

    // The first offset at which what format left differs from what it should be.
    // A byte of a sector that is not written is to stay as it was.
    pub fn first_difference(&self, before: &[u8], after: &[u8]) -> Option<usize> {
        if before.len() != after.len() {
            return Some(before.len().min(after.len()));
        }
        for (offset, (old, new)) in before.iter().zip(after).enumerate() {
            if *new != self.byte(offset).unwrap_or(*old) {
                return Some(offset);
            }
        }
        None
    }
}
