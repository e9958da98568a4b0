// Clear Poison (document 01, "Poison list"), of a line of the device: its caller has checked the address.
ghost use Rattle.std.specs.Prelude.{◌<◌};
ghost use Rattle.poison.specs.State.{capacity, ValidList};
ghost use Rattle.poison.specs.Clear.{Clears};

use crate::list::{Entry, PoisonList};

impl PoisonList {
    // Clear Poison of a line, at a device time: the entry over the line is replaced by the part before and the part after, each if not
    // empty. With 256 held and both parts left, the part after is dropped.
    pub fn clear(&mut self, line: u32, time: u64)
        requires { ValidList capacity self.old × (line < capacity) }
        ensures { Clears self.old line time self.new }
    {
        let Some(at) = self.cover(line) else {
            return;
        };
        let over = self.entry_at(at);
        let front = line - over.start;
        let back = over.lines - front - 1;
        match (front, back) {
            (0, 0) => self.take_entry(at),
            (0, _) => {
                self.starts[at] = line + 1;
                self.lengths[at] = back;
            }
            (_, 0) => self.lengths[at] = front,
            _ => {
                self.lengths[at] = front;
                if self.count == 256 {
                    self.record_drop(time);
                } else {
                    let after = Entry {
                        start: line + 1,
                        lines: back,
                        kind: over.kind,
                    };
                    self.put_entry(at + 1, after);
                }
            }
        }
    }
}
