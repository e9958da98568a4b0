// Inject Poison (document 01, "Poison list"), at a line of the device: its caller has checked the address.
ghost use Rattle.std.specs.Prelude.{◌<◌};
ghost use Rattle.poison.specs.State.{capacity, ValidList};
ghost use Rattle.poison.specs.Inject.{Injects};
ghost use Rattle.poison.specs.Injected.{taken, added};

use crate::list::{Entry, PoisonList};

// What became of an injection: it added an entry; the line was covered already and nothing changes; or it is not taken, since 256 entries are held and none covers the line
// (document 02, W-204: only one that adds an entry is an event).
#[derive(Clone, Copy, Debug, PartialEq, Eq, Hash)]
pub enum Injected {
    Added,
    Covered,
    Full,
}

impl PoisonList {
    // Inject Poison at a line.
    pub fn inject(&mut self, line: u32) -> Injected
        requires { ValidList capacity self.old × (line < capacity) }
        ensures { Injects self.old line (taken result) (added result) self.new }
    {
        match self.cover(line) {
            Some(_) => Injected::Covered,
            None if self.count == 256 => Injected::Full,
            None => {
                let place = self.place(line);
                let entry = Entry {
                    start: line,
                    lines: 1,
                    kind: 3,
                };
                self.put_entry(place, entry);
                Injected::Added
            }
        }
    }
}
