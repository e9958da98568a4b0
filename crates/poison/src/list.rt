// The list in memory, with what its other modules read and set in it: an entry, and a drop.
ghost use Rattle.std.specs.Prelude.{◌≡◌, ◌≤◌, ◌<◌, length, get_or, sum};
ghost use Rattle.poison.specs.State.{state_of, Made, damage_total};
ghost use Rattle.poison.specs.Report.{dropped_at};

// The entries are the first `count` of each array; what stands past them is no part of the list, and shows in `==` and `Debug` alone. The arrays stay side by side: crate `embed_c` exports
// this layout to C (`#[repr(C)]`, 7,672 bytes of a device), and the search reads starts alone.
// Of the fields, which are public, `list_commands` reads the flag and its time; no other crate names one (tests/layers).
#[repr(C)]
#[derive(Clone, Copy, Debug, PartialEq, Eq)]
pub struct PoisonList {
    pub starts: [u32; 256],
    pub lengths: [u32; 256],
    pub kinds: [u8; 256],
    pub count: usize,
    pub overflow: bool,
    pub overflow_time: u64,
}

// An entry: its first line, the number of its lines, and its type.
#[derive(Clone, Copy, Debug, PartialEq, Eq)]
pub(crate) struct Entry {
    pub start: u32,
    pub lines: u32,
    pub kind: u8,
}

// The sum of some lengths.
fn line_sum(lengths: &[u32]) -> u64
    requires { length lengths.now ≤ 256 }
    ensures { result ≡ sum lengths.now }
{
    lengths.iter().map(|&lines| u64::from(lines)).sum()
}

impl PoisonList {
    // The empty list.
    pub fn new() -> Self
        ensures { Made result }
    {
        PoisonList {
            starts: [0; 256],
            lengths: [0; 256],
            kinds: [0; 256],
            count: 0,
            overflow: false,
            overflow_time: 0,
        }
    }

    // Damage total: the sum of entry lengths, worked out at each call.
    pub fn total(&self) -> u64
        requires { self.now.count ≤ 256 }
        ensures { result ≡ damage_total (state_of self.now) }
    {
        line_sum(&self.lengths[..self.count])
    }

    // What the arrays hold at place i.
    pub(crate) fn entry_at(&self, i: usize) -> Entry
        requires { i < 256 }
        ensures start { result.start ≡ get_or self.now.starts i 0 }
        ensures lines { result.lines ≡ get_or self.now.lengths i 0 }
        ensures kind { result.kind ≡ get_or self.now.kinds i 0 }
    {
        Entry {
            start: self.starts[i],
            lines: self.lengths[i],
            kind: self.kinds[i],
        }
    }

    // A drop at a device time: the flag is set, and the first drop sets the overflow time, which then stays.
    pub(crate) fn record_drop(&mut self, time: u64)
        ensures { self.new ≡ dropped_at self.old time }
    {
        if !self.overflow {
            self.overflow_time = time;
        }
        self.overflow = true;
    }
}
