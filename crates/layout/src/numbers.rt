ghost use Rattle.std.specs.Prelude.{◌≡◌, ◌+◌, ◌^◌, ◌<◌, ◌≤◌, length};
ghost use Rattle.layout.specs.Bytes.{number, bytes as encoded, over};

// The bytes of a number, the highest first.
pub fn to_bytes<const N: usize>(n: usize) -> [u8; N]
    ensures { result ≡ encoded N n }
{
    let mut bytes = [0; N];
    let mut rest = n;
    // the last byte first, since a loop over `iter_mut().rev()` tells nothing of the array
    for byte in bytes.iter_mut() {
        *byte = (rest % 256) as u8;
        rest /= 256;
    }
    bytes.reverse();
    bytes
}

// The number that some bytes from an offset on show, the highest first.
pub fn number_at(bytes: &[u8], at: usize, width: usize) -> usize
    requires inside { at + width ≤ length bytes.now }
    requires narrow { width ≤ 4 }
    ensures is { result ≡ number at width bytes.now }
    ensures fits { result < 256 ^ width }
{
    let mut n = 0;
    for byte in &bytes[at..at + width] {
        n = n * 256 + usize::from(*byte);
    }
    n
}

// Writes bytes over those from an offset on.
pub fn put(bytes: &mut [u8], at: usize, part: &[u8])
    requires { at + length part.now ≤ length bytes.old }
    ensures { bytes.new ≡ over at part.now bytes.old }
{
    bytes[at..at + part.len()].copy_from_slice(part);
}
