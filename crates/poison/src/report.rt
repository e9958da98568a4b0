// Media report (document 01, "Poison list"), of lines of the device: its caller has checked the type, the address and the end.
ghost use Rattle.std.specs.Prelude.{◌+◌, ◌≤◌, ◌<◌};
ghost use Rattle.poison.specs.State.{capacity, runs_in, ValidRuns, ValidList};
ghost use Rattle.poison.specs.Report.{Reports};
ghost use Rattle.poison.specs.Stretch.{StretchFrom};

use crate::list::{Entry, PoisonList};

// Lines that are all covered, or all uncovered, up to the line that it names, which is past them.
#[derive(Clone, Copy, Debug, PartialEq, Eq)]
enum Stretch {
    Covered(u32),
    Uncovered(u32),
}

// The lines that a report stored and dropped.
#[derive(Clone, Copy, Debug, PartialEq, Eq)]
pub struct Reported {
    pub stored: u32,
    pub dropped: u32,
}

impl PoisonList {
    // How far the lines from `at` on are all covered, or all uncovered. Covered lines are those of one entry: the line at the stop may be the next
    // entry's. Uncovered lines end at the next entry, which may lie whole between the extent's two ends (document 01, "Errors that look reasonable").
    fn stretch_from(&self, at: u32, end: u32) -> Stretch
        requires { ValidRuns capacity self.now.count self.now.starts self.now.lengths × (at < end) }
        ensures { StretchFrom (runs_in self.now.count self.now.starts self.now.lengths) at end result }
    {
        if let Some(i) = self.cover(at) {
            let past = self.starts[i] + self.lengths[i];
            return Stretch::Covered(past.min(end));
        }
        let next = self.place(at);
        if next < self.count {
            return Stretch::Uncovered(self.starts[next].min(end));
        }
        Stretch::Uncovered(end)
    }

    // Media report of `lines` lines from `start` on, of type `kind`, at a device time.
    pub fn report(&mut self, start: u32, lines: u32, kind: u8, time: u64) -> Reported
        requires { ValidList capacity self.old × (start + lines ≤ capacity) × (kind < 8) }
        ensures { Reports self.old start lines kind time result.stored result.dropped self.new }
    {
        let end = start + lines;
        let mut at = start;
        let mut stored: u32 = 0;
        let mut dropped: u32 = 0;
        while at < end {
            match self.stretch_from(at, end) {
                Stretch::Covered(stop) => at = stop,
                Stretch::Uncovered(stop) => {
                    let run = stop - at;
                    if self.count == 256 {
                        dropped += run;
                    } else {
                        let place = self.place(at);
                        let entry = Entry {
                            start: at,
                            lines: run,
                            kind,
                        };
                        self.put_entry(place, entry);
                        stored += run;
                    }
                    at = stop;
                }
            }
        }
        if 0 < dropped {
            self.record_drop(time);
        }
        Reported { stored, dropped }
    }
}
