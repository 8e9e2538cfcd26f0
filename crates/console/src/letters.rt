ghost use Rattle.std.specs.Prelude.{◌≡◌, IfOk, Some, string_bytes};
ghost use Rattle.layout.specs.Names.{name_of};

use std::alloc::{AllocError, Global};
use std::fmt;

// A name as it is stored. It prints its letters: bit 7 marks the last one, and is left out.
#[derive(Clone, Copy, PartialEq, Eq, Debug)]
pub struct StoredName<'a>(pub &'a [u8]);

impl fmt::Display for StoredName<'_> {
    ghost output = { λ stored. Some (name_of stored.0.now) };

    fn fmt<W: fmt::Write>(&self, f: &mut fmt::Formatter<W>) -> fmt::Result {
        for b in self.0 {
            if *b >= 128 {
                return f.write_char(char::from(*b - 128));
            }
            f.write_char(char::from(*b))?;
        }
        Ok(())
    }
}

// The letters of a stored name, for a caller who wants them in memory of its own.
pub fn stored_letters(heap: Global, stored: &[u8]) -> Result<String, AllocError>
    ensures { IfOk result (λ s. string_bytes s ≡ name_of stored.now) }
{
    StoredName(stored).to_string(heap)
}
