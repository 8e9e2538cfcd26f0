// A run of sectors that belongs to a file: where it starts, and how many sectors it has.
#[derive(Clone, Copy, PartialEq, Eq, Debug)]
pub struct Segment {
    pub start: usize,
    pub len: usize,
}
