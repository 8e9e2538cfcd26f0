// A descriptor that waits to be visited: its LSN, the directory that names it, and the name there,
// as it is stored, with zeros behind its last byte.
#[derive(Clone, Copy, PartialEq, Eq, Debug)]
pub struct Waiting {
    pub lsn: usize,
    pub parent: usize,
    pub name: [u8; 28],
}

impl Waiting {
    // What a place of the list holds where nothing waits.
    pub const UNUSED: Waiting = Waiting {
        lsn: 0,
        parent: 0,
        name: [0; 28],
    };
}
