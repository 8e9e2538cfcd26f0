ghost use Rattle.std.specs.Prelude.{◌<◌};

// What a new descriptor says of its file, apart from its bytes: attribute, owner, and the dates of the last change and of its making.
#[derive(Clone, Copy, PartialEq, Eq, Debug)]
pub struct Heading {
    pub attribute: u8,
    pub owner: u16,
    pub modified: [u8; 5],
    pub created: [u8; 3],
    // what the types say, for whoever has a heading and reads no field of it
    ghost byte: { attribute < 256 },
    ghost word: { owner < 65536 },
}
