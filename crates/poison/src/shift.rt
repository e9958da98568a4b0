// An entry put in its place in a list, or taken away: the elements of each array move in place, and nothing else moves entries.
ghost use Rattle.std.specs.Prelude.{◌≡◌, ◌≤◌, ◌<◌, length};
ghost use Rattle.poison.specs.Shift.{put_at, pullAt};
ghost use Rattle.poison.specs.Moved.{EntryAdded, EntryRemoved};

use crate::list::{Entry, PoisonList};

// Puts v at place `at` of the n elements held: those from there on move up by one slot.
fn put<T: Copy>(slots: &mut [T], at: usize, n: usize, v: T)
    requires { (at ≤ n) × (n < length slots.old) }
    ensures { slots.new ≡ put_at at n v slots.old }
{
    slots.copy_within(at..n, at + 1);
    slots[at] = v;
}

// Takes the element at place `at` away from the last + 1 held: those after it move down by one slot.
fn pull<T: Copy>(slots: &mut [T], at: usize, last: usize)
    requires { (at ≤ last) × (last < length slots.old) }
    ensures { slots.new ≡ pullAt at last slots.old }
{
    slots.copy_within(at + 1..last + 1, at);
}

impl PoisonList {
    // Puts an entry at place `at`: the one way in which an entry comes into a list (a media report, an injection, a clearing that leaves both parts). The slots past the
    // new last entry keep what they held.
    pub(crate) fn put_entry(&mut self, at: usize, e: Entry)
        requires { (at ≤ self.old.count) × (self.old.count < 256) }
        ensures { EntryAdded self.old at e.start e.lines e.kind self.new }
    {
        put(&mut self.starts, at, self.count, e.start);
        put(&mut self.lengths, at, self.count, e.lines);
        put(&mut self.kinds, at, self.count, e.kind);
        self.count += 1;
    }

    // Takes the entry at place `at` away.
    pub(crate) fn take_entry(&mut self, at: usize)
        requires { (at < self.old.count) × (self.old.count ≤ 256) }
        ensures { EntryRemoved self.old at self.new }
    {
        let last = self.count - 1;
        pull(&mut self.starts, at, last);
        pull(&mut self.lengths, at, last);
        pull(&mut self.kinds, at, last);
        self.count = last;
    }
}
