ghost use Rattle.std.specs.Prelude.{◌≡◌, ℕ, ◌+◌, ◌*◌, ◌<◌, ◌≤◌, Bool, List, length};
ghost use Rattle.layout.specs.Bytes.{over};
ghost use Rattle.layout.specs.Records.{record_at, FirstUnused};

// A kind of record of one width: how it is stored, and when it is unused.
pub trait Record {
    const WIDTH: usize;

    type Value;

    // the constant's value, for clauses
    ghost WIDTH: { ℕ };

    // the values that a record can hold
    ghost lawful: { Self.Value → Type 0 };

    ghost value_of: { List ℕ → Self.Value };

    ghost bytes_of: { Self.Value → List ℕ };

    ghost is_unused: { List ℕ → Bool };

    fn unused(bytes: &[u8]) -> bool
        requires { length bytes.now ≡ WIDTH }
        ensures { result ≡ is_unused bytes.now };

    fn read(bytes: &[u8]) -> Self::Value
        requires { length bytes.now ≡ WIDTH }
        ensures { result ≡ value_of bytes.now };

    fn write(value: &Self::Value, bytes: &mut [u8])
        requires { (length bytes.old ≡ WIDTH) × (lawful value.now) }
        ensures { bytes.new ≡ bytes_of value.now };

    ghost some: { 0 < WIDTH };

    ghost wide: { (v : Self.Value) → lawful v → length (bytes_of v) ≡ WIDTH };

    // what was written is read back
    ghost back: { (v : Self.Value) → lawful v → value_of (bytes_of v) ≡ v };
}

// The k-th record of a table.
pub fn nth<R: Record>(table: &[u8], k: usize) -> R::Value
    requires { k * R.WIDTH + R.WIDTH ≤ length table.now }
    ensures { result ≡ R.value_of (record_at R.WIDTH k table.now) }
{
    let at = k * R::WIDTH;
    R::read(&table[at..at + R::WIDTH])
}

// Writes the k-th record of a table.
pub fn put_nth<R: Record>(table: &mut [u8], k: usize, value: &R::Value)
    requires { (k * R.WIDTH + R.WIDTH ≤ length table.old) × (R.lawful value.now) }
    ensures laid { table.new ≡ over (k * R.WIDTH) (R.bytes_of value.now) table.old }
    ensures back { R.value_of (record_at R.WIDTH k table.new) ≡ value.now }
{
    let at = k * R::WIDTH;
    R::write(value, &mut table[at..at + R::WIDTH]);
}

// The first unused record of a table, if it has one.
pub fn first_unused<R: Record>(table: &[u8]) -> Option<usize>
    ensures { FirstUnused R.WIDTH R.is_unused table.now result }
{
    table
        .chunks_exact(R::WIDTH)
        .position(|record| R::unused(record))
}
