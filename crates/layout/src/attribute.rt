ghost use Rattle.std.specs.Prelude.{◌≡◌, ℕ, ◌<◌, cond, Some, slice_index};
ghost use Rattle.layout.specs.Attributes.{letters, shown};
ghost use Rattle.layout.specs.Map.{bit_at};

use std::fmt;

// The letters of an attribute, the first e w r for the public.
const LETTERS: [u8; 8] = *b"dsewrewr";

// An attribute of a file, which is printed as its eight letters.
#[derive(Clone, Copy, PartialEq, Eq, Debug)]
pub struct Attribute(pub u8);

// The letter of a bit where it is set, and "-" where it is not. Place 0 is the highest bit.
fn letter(attribute: u8, place: usize) -> u8
    requires { place < 8 }
    ensures { result ≡ cond {A = ℕ} (bit_at attribute place) (slice_index letters place) 45 }
{
    if (attribute >> (7 - place)) % 2 == 1 {
        LETTERS[place]
    } else {
        b'-'
    }
}

// The eight letters of an attribute: d s e w r e w r, the first e w r for the public.
pub fn attribute_letters(attribute: u8) -> [u8; 8]
    ensures { result ≡ shown attribute }
{
    std::array::from_fn(|place| letter(attribute, place))
}

impl fmt::Display for Attribute {
    ghost output = { λ a. Some (shown a.0) };

    fn fmt<W: fmt::Write>(&self, f: &mut fmt::Formatter<W>) -> fmt::Result {
        let letters = attribute_letters(self.0);
        let Ok(text) = str::from_utf8(&letters) else {
            unreachable()
        };
        f.write_str(text)
    }
}
