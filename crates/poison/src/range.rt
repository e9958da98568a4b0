// What Get Poison List carries (document 01, "Poison list"): the entries that share a line with a range, each cut to the range, as
// records of 16 bytes written to a lent buffer. Those entries are neighbours in the list: their first and their number are found by
// halves, and only those that are written are read.
ghost use Rattle.std.specs.Prelude.{◌≡◌, map, ◌+◌, ◌*◌, ◌≤◌, ◌<◌, length, drop};
ghost use Rattle.wire.specs.Wire.{splice};
ghost use Rattle.poison.specs.Runs.{run};
ghost use Rattle.poison.specs.State.{capacity, entry, runs_in, entries_in, entries_of, ValidRuns, ValidList};
ghost use Rattle.poison.specs.Range.{first_past, cut_to, record_bytes, records_bytes, Cuttable, Writable, Wrote};

use crate::list::{Entry, PoisonList};

// Writes the record of an entry to d from index at on: the type lies in the low bits of the address.
fn put_record(d: &mut [u8], at: usize, e: Entry)
    requires { (at + 16 ≤ length d.old) × (e.kind < 8) }
    ensures { d.new ≡ splice at (record_bytes (entry e.kind (run e.start e.lines))) d.old }
{
    let address = u64::from(e.start) << 6 | u64::from(e.kind);
    wire::put(d, at, 8, address);
    wire::put(d, at + 8, 4, u64::from(e.lines));
    wire::put(d, at + 12, 4, 0);
}

// Writes the record of an entry cut to the n lines from `from` on.
fn put_cut(d: &mut [u8], at: usize, from: u32, n: u32, e: Entry)
    requires { (at + 16 ≤ length d.old) × (from + n ≤ capacity) × Cuttable from n e.start e.lines e.kind }
    ensures { d.new ≡ splice at (record_bytes (cut_to from n (entry e.kind (run e.start e.lines)))) d.old }
{
    let first = from.max(e.start);
    let end = (from + n).min(e.start + e.lines);
    let cut = Entry {
        start: first,
        lines: end - first,
        kind: e.kind,
    };
    put_record(d, at, cut);
}

impl PoisonList {
    // Writes the records of m neighbours in the list, from place `first` on, each cut to the n lines from `from` on.
    fn put_neighbours(&self, first: usize, m: usize, from: u32, n: u32, d: &mut [u8], at: usize)
        requires { Writable from n first m self.now.starts self.now.lengths self.now.kinds × (at + 16 * m ≤ length d.old) }
        ensures { d.new ≡ splice at (records_bytes (map (cut_to from n) (drop first (entries_in (first + m) self.now.starts self.now.lengths self.now.kinds)))) d.old }
    {
        for i in 0..m {
            put_cut(d, at + 16 * i, from, n, self.entry_at(first + i));
        }
    }

    // The place of the first entry that ends past a line, or the number of entries where none does.
    fn first_past(&self, line: u32) -> usize
        requires { ValidRuns capacity self.now.count self.now.starts self.now.lengths }
        ensures { result ≡ first_past (runs_in self.now.count self.now.starts self.now.lengths) line }
    {
        match self.cover(line) {
            Some(over) => over,
            None => self.place(line),
        }
    }

    // Writes at most `limit` records of the entries that share a line with the `lines` lines from `from` on, lowest first, into d from
    // index at on, and answers how many entries share one.
    pub fn put_records(&self, from: u32, lines: u32, limit: usize, d: &mut [u8], at: usize) -> usize
        requires { ValidList capacity self.now × (from + lines ≤ capacity) × (limit ≤ 256) × (at + 16 * limit ≤ length d.old) }
        ensures { Wrote (entries_of self.now) from lines limit at result d.old d.new }
    {
        if lines == 0 {
            return 0;
        }
        let first = self.first_past(from);
        let number = self.place(from + lines - 1) - first;
        let m = number.min(limit);
        self.put_neighbours(first, m, from, lines, d, at);
        number
    }
}
