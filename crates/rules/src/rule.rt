ghost use Rattle.std.specs.Prelude.{◌≡◌, [], ◌∷◌, Some};
ghost use Rattle.rules.specs.Letters.{letter};

use std::fmt;

// The rules of a sound volume. A finding names the rule that is broken and the sector at which it is.
#[derive(Clone, Copy, PartialEq, Eq, Debug)]
pub enum Rule {
    // the identification sector is lawful
    A,
    // every descriptor and segment lies behind the map and within the volume
    B,
    // no used segment entry follows an unused one, and unused ones are zero
    C,
    // the segments hold the size, and a directory's size is a number of slots
    D,
    // the slots of a directory are lawful
    E,
    // directories are marked, the root is one, and a file has one link
    F,
    // no sector is held twice
    G,
    // the map has every system sector and every held one as taken
    H,
}

impl Rule {
    // The letter of a rule.
    pub fn letter(self) -> char
        ensures { result ≡ letter self }
    {
        match self {
            Rule::A => 'A',
            Rule::B => 'B',
            Rule::C => 'C',
            Rule::D => 'D',
            Rule::E => 'E',
            Rule::F => 'F',
            Rule::G => 'G',
            Rule::H => 'H',
        }
    }
}

impl fmt::Display for Rule {
    ghost output = { λ r. Some (letter r ∷ []) };

    fn fmt<W: fmt::Write>(&self, f: &mut fmt::Formatter<W>) -> fmt::Result {
        f.write_char(self.letter())
    }
}
