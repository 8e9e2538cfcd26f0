// What an open path may do with its file.
#[derive(Clone, Copy, PartialEq, Eq, Debug)]
pub enum PathKind {
    Read,
    Update,
}

// An open path: its number, its kind, the descriptor of its file and the position in it.
#[derive(Clone, Copy, PartialEq, Eq, Debug)]
pub struct OpenPath {
    pub number: u32,
    pub kind: PathKind,
    pub descriptor: usize,
    pub position: u32,
}
