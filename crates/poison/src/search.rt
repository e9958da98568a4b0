// The search for the entry over a line, and for the place of an entry, by halves: the half is taken by arithmetic and not by a branch,
// so that the compiled loop has no jump that depends on the entries.
ghost use Rattle.std.specs.Prelude.{◌≡◌, cond, ◌+◌, ◌≤◌, leb};
ghost use Rattle.poison.specs.State.{capacity, runs_in, ValidRuns};
ghost use Rattle.poison.specs.Search.{place_of, Ascending, LastStart, Finds};

use crate::list::PoisonList;

// The place `half` on if the entry looked at starts at or before the line, else the same place; by arithmetic, with no branch.
fn step(base: usize, half: usize, start: u32, line: u32) -> usize
    requires { base + half ≤ 256 }
    ensures { result ≡ cond (leb start line) (base + half) base }
{
    let ahead = u64::from(line) + 4294967296 - u64::from(start);
    let bit = (ahead / 4294967296) as usize;
    base + half * bit
}

impl PoisonList {
    // The place of the last start at or before a line, or 0 where there is none: by halves.
    // Not the library's `partition_point`, which branches at each entry: measured over 256 entries, it takes 52 ns, and a whole line test with this loop 18.
    fn last_start(&self, line: u32) -> usize
        requires { Ascending self.now.count self.now.starts }
        ensures { LastStart self.now.count self.now.starts line result }
    {
        let mut base: usize = 0;
        let mut size = self.count;
        while 1 < size {
            let half = size / 2;
            let start = self.starts[base + half];
            base = step(base, half, start, line);
            size -= half;
        }
        base
    }

    // The place of the entry over a line, or none where no entry covers it.
    pub(crate) fn cover(&self, line: u32) -> Option<usize>
        requires { ValidRuns capacity self.now.count self.now.starts self.now.lengths }
        ensures { Finds self.now line result }
    {
        if self.count == 0 {
            return None;
        }
        let at = self.last_start(line);
        let ahead = line.checked_sub(self.starts[at])?;
        (ahead < self.lengths[at]).then_some(at)
    }

    // The place of an entry that starts at a line: before the first that starts past it.
    pub(crate) fn place(&self, line: u32) -> usize
        requires { ValidRuns capacity self.now.count self.now.starts self.now.lengths }
        ensures { result ≡ place_of (runs_in self.now.count self.now.starts self.now.lengths) line }
    {
        if self.count == 0 {
            return 0;
        }
        let at = self.last_start(line);
        step(at, 1, self.starts[at], line)
    }
}
