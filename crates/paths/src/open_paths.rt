ghost use Rattle.std.specs.Prelude.{◌≡◌, ◌≤◌, None, MatchBool, MatchOption};
ghost use Rattle.paths.specs.Paths.{path_at, open_count, of_kind, First, Free, AddAnswer, Moved, Removed, OpenOn, UpdatedOn};

use super::open_path::{OpenPath, PathKind};

// How many paths may be open at once.
pub const MOST: usize = 16;

// The open paths, each in a place of its own, and how many were ever opened.
#[derive(Drop)]
pub struct OpenPaths {
    places: [Option<OpenPath>; MOST],
    opened: u32,
}

impl OpenPaths {
    // No path is open, and none ever was.
    pub fn none() -> OpenPaths
        ensures empty { open_count result.places ≡ 0 }
        ensures unopened { result.opened ≡ 0 }
    {
        OpenPaths {
            places: [None; MOST],
            opened: 0,
        }
    }

    // How many paths were ever opened.
    pub fn opened(&self) -> u32
        ensures { result ≡ self.now.opened }
    {
        self.opened
    }

    // How many paths are open.
    pub fn count(&self) -> usize
        ensures is { result ≡ open_count self.now.places }
        ensures few { result ≤ 16 }
    {
        self.places.iter().filter(|place| place.is_some()).count()
    }

    // The place of the open path with a number.
    fn place_of(&self, number: u32) -> Option<usize>
        ensures { MatchOption result (path_at self.now.places number ≡ None) (First self.now.places number) }
    {
        self.places.iter().position(|place| matches!(place, Some(path) if path.number == number))
    }

    // A place where no path is.
    fn free_place(&self) -> Option<usize>
        ensures { MatchOption result (open_count self.now.places ≡ 16) (Free self.now.places) }
    {
        self.places.iter().position(|place| place.is_none())
    }

    // The open path with a number, if it is of a kind.
    pub fn find(&self, number: u32, kind: PathKind) -> Option<OpenPath>
        ensures { result ≡ of_kind kind (path_at self.now.places number) }
    {
        let k = self.place_of(number)?;
        self.places[k].filter(|path| path.kind == kind)
    }

    // Opens a path at position 0; its number is one more than those opened before.
    // None where sixteen are open, or where no number is left.
    pub fn add(&mut self, kind: PathKind, descriptor: usize) -> Option<u32>
        ensures { AddAnswer self.old.places self.new.places self.old.opened self.new.opened kind descriptor result }
    {
        let number = self.opened.checked_add(1)?;
        let k = self.free_place()?;
        self.places[k] = Some(OpenPath {
            number,
            kind,
            descriptor,
            position: 0,
        });
        self.opened = number;
        Some(number)
    }

    // Moves an open path to a position.
    pub fn move_to(&mut self, number: u32, position: u32)
        ensures moved { Moved self.old.places self.new.places self.old.opened number position }
        ensures opened { self.new.opened ≡ self.old.opened }
    {
        let Some(k) = self.place_of(number) else {
            return;
        };
        if let Some(path) = &mut self.places[k] {
            path.position = position;
        }
    }

    // Closes the open path with a number.
    pub fn remove(&mut self, number: u32)
        ensures removed { Removed self.old.places self.new.places self.old.opened number }
        ensures opened { self.new.opened ≡ self.old.opened }
    {
        let Some(k) = self.place_of(number) else {
            return;
        };
        self.places[k] = None;
    }

    // Whether a path is open on a file.
    pub fn is_open(&self, descriptor: usize) -> bool
        ensures { MatchBool result (OpenOn self.now.places descriptor) (OpenOn self.now.places descriptor → ⊥) }
    {
        self.places.iter().any(|place| matches!(place, Some(path) if path.descriptor == descriptor))
    }

    // Whether a path for update is open on a file.
    pub fn is_updated(&self, descriptor: usize) -> bool
        ensures { MatchBool result (UpdatedOn self.now.places descriptor) (UpdatedOn self.now.places descriptor → ⊥) }
    {
        self.places.iter().any(
            |place| matches!(place, Some(path) if path.descriptor == descriptor && path.kind == PathKind::Update),
        )
    }
}
