ghost use Rattle.std.specs.Prelude.{◌≡◌, ◌+◌, ◌<◌, ◌≤◌, length, slice_set};
ghost use Rattle.survey.specs.Lists.{Kept, Popped};

use super::waiting::Waiting;

// The work lists of a walk, lent by the caller: a mark for each sector, and the stack of those that wait, in the first places of a list.
#[derive(Drop)]
pub struct WorkLists<'a> {
    pub(crate) marks: &'a mut [u8],
    pub(crate) waiting: &'a mut [Waiting],
    // how many wait
    pub(crate) count: usize,
}

impl<'a> WorkLists<'a> {
    // The lists, with nothing that waits.
    pub fn new(marks: &'a mut [u8], waiting: &'a mut [Waiting]) -> WorkLists<'a>
        ensures same_marks { result.marks.ghost_name ≡ marks.entry.ghost_name }
        ensures same_waiting { result.waiting.ghost_name ≡ waiting.entry.ghost_name }
        ensures marks { result.marks.now ≡ marks.old }
        ensures waiting { result.waiting.now ≡ waiting.old }
        ensures empty { result.count ≡ 0 }
    {
        WorkLists {
            marks,
            waiting,
            count: 0,
        }
    }

    // How many wait.
    pub fn len(&self) -> usize
        ensures { result ≡ self.now.count }
    {
        self.count
    }

    // The marks, to be read between two steps.
    pub fn marks(&self) -> &[u8]
        ensures { result.now ≡ self.now.marks.now }
    {
        &*self.marks
    }

    // The list of those that wait, with all its places: the first `len` wait.
    pub fn waiting(&self) -> &[Waiting]
        ensures { result.now ≡ self.now.waiting.now }
    {
        &*self.waiting
    }

    // Marks a sector.
    pub fn mark(&mut self, lsn: usize)
        requires { lsn < length self.old.marks.now }
        ensures kept { Kept self.old self.new }
        ensures marks { self.new.marks.now ≡ slice_set self.old.marks.now lsn 1 }
        ensures waiting { self.new.waiting.now ≡ self.old.waiting.now }
        ensures count { self.new.count ≡ self.old.count }
    {
        self.marks[lsn] = 1;
    }

    // Adds one that waits.
    pub fn push(&mut self, next: Waiting)
        requires { self.old.count < length self.old.waiting.now }
        ensures kept { Kept self.old self.new }
        ensures marks { self.new.marks.now ≡ self.old.marks.now }
        ensures waiting { self.new.waiting.now ≡ slice_set self.old.waiting.now self.old.count next }
        ensures count { self.new.count ≡ self.old.count + 1 }
    {
        self.waiting[self.count] = next;
        self.count += 1;
    }

    // Takes the last that waits, if one does.
    pub fn pop(&mut self) -> Option<Waiting>
        requires { self.old.count ≤ length self.old.waiting.now }
        ensures kept { Kept self.old self.new }
        ensures marks { self.new.marks.now ≡ self.old.marks.now }
        ensures waiting { self.new.waiting.now ≡ self.old.waiting.now }
        ensures taken { Popped self.old.count self.new.count self.old.waiting.now result }
    {
        if self.count == 0 {
            return None;
        }
        self.count -= 1;
        Some(self.waiting[self.count])
    }
}
