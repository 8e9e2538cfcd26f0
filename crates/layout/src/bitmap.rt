ghost use Rattle.std.specs.Prelude.{◌≡◌, ℕ, ◌+◌, ◌*◌, ◌<◌, ◌≤◌, length};
ghost use Rattle.layout.specs.Map.{map_bytes_of, map_sectors, bit_of, clear_below};

// How many bits a sector of the map has.
pub const BITS: usize = 2048;

// How many bytes the map of a volume has: a bit for each sector. The number is a plain one here and below,
// since its bound comes from another type in each caller: a record, a plan, or a question just answered.
pub fn map_bytes(total: usize) -> usize
    requires { total ≤ 65536 }
    ensures { result ≡ map_bytes_of total }
{
    total.div_ceil(8)
}

// How many sectors the map of a volume fills.
pub fn map_length(total: usize) -> usize
    requires { total ≤ 65536 }
    ensures { result ≡ map_sectors total }
{
    map_bytes(total).div_ceil(256)
}

// Whether a bit of a map sector is set.
pub fn is_set(map: &[u8], k: usize) -> bool
    requires { k < 8 * length map.now }
    ensures { result ≡ bit_of map.now k }
{
    (map[k / 8] >> (7 - k % 8)) % 2 == 1
}

// How many of the first `n` bits of a map sector are clear.
pub fn clear_in(map: &[u8], n: usize) -> usize
    requires { n ≤ 8 * length map.now }
    ensures is { result ≡ clear_below (bit_of map.now) n }
    ensures few { result ≤ n }
{
    (0..n).map(|k| usize::from(!is_set(map, k))).sum()
}
