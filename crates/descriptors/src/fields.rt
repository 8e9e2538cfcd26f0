ghost use Rattle.std.specs.Prelude.{◌≡◌, ◌^◌, ◌<◌};
ghost use Rattle.layout.specs.Bytes.{bytes as encoded, over};
ghost use Rattle.descriptors.specs.Shown.{shown, with_size, with_date, SameEntries};

use layout::numbers::{put, to_bytes};

// Writes the size of a file.
pub fn set_size(descriptor: &mut [u8; 256], size: usize)
    requires { size < 2 ^ 32 }
    ensures laid { descriptor.new ≡ over 9 (encoded 4 size) descriptor.old }
    ensures shows { shown descriptor.new ≡ with_size size (shown descriptor.old) }
    ensures entries { SameEntries descriptor.old descriptor.new }
{
    put(descriptor, 9, &to_bytes::<4>(size));
}

// Writes the date of the last change.
pub fn set_modified(descriptor: &mut [u8; 256], date: &[u8; 5])
    ensures laid { descriptor.new ≡ over 3 date.now descriptor.old }
    ensures shows { shown descriptor.new ≡ with_date date.now (shown descriptor.old) }
    ensures entries { SameEntries descriptor.old descriptor.new }
{
    put(descriptor, 3, date);
}
