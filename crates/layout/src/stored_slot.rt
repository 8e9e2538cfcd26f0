// A slot of a directory as it is stored: 28 bytes of name, and the LSN of a descriptor.
#[derive(Clone, Copy, PartialEq, Eq, Debug)]
pub struct StoredSlot {
    pub name: [u8; 28],
    pub lsn: usize,
}
