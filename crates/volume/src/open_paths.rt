// The open paths of a volume, under this crate's name.
pub use paths::open_path::{OpenPath, PathKind};
pub use paths::open_paths::{MOST, OpenPaths};
