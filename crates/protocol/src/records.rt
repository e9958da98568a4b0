// The records of the input (document 01, "Bench program"; document 10, "Rules"): a record's mark, and its bytes brought whole into the input buffer.
// How long a record is `formats` says.
ghost use Rattle.std.specs.Prelude.{◌≡◌, ◌≤◌, ◌<◌, length};
ghost use Rattle.protocol.specs.Stream.{Fits};
ghost use Rattle.protocol.specs.Records.{mark_of};
ghost use Rattle.protocol.specs.Relations.{FindsBytes};

use crate::stream::{Stream, System};

// What comes next: `size` bytes from the stream's place on, which lie in the buffer, or none where they are cut.
// A size of 0 stands for none, as in the readings of specs/: `Finds.size` promises that number to `bench` and `probe`.
#[derive(Clone, Copy, Debug, PartialEq, Eq)]
pub struct Found {
    pub size: usize,
    pub stream: Stream,
}

// The marks that both programs have.
pub const NW: u64 = b'N' as u64 * 256 + b'W' as u64;

pub const CM: u64 = b'C' as u64 * 256 + b'M' as u64;

pub const EV: u64 = b'E' as u64 * 256 + b'V' as u64;

pub const MD: u64 = b'M' as u64 * 256 + b'D' as u64;

pub const LT: u64 = b'L' as u64 * 256 + b'T' as u64;

// The marks that `probe` alone has.
pub const ES: u64 = b'E' as u64 * 256 + b'S' as u64;

pub const DT: u64 = b'D' as u64 * 256 + b'T' as u64;

pub const RQ: u64 = b'R' as u64 * 256 + b'Q' as u64;

pub const RP: u64 = b'R' as u64 * 256 + b'P' as u64;

pub const RW: u64 = b'R' as u64 * 256 + b'W' as u64;

pub const WK: u64 = b'W' as u64 * 256 + b'K' as u64;

pub const AR: u64 = b'A' as u64 * 256 + b'R' as u64;

pub const AB: u64 = b'A' as u64 * 256 + b'B' as u64;

pub const PC: u64 = b'P' as u64 * 256 + b'C' as u64;

// The mark of a record: its two letters as one number.
pub fn mark(bytes: &[u8]) -> u64
    requires { 2 ≤ length bytes.now }
    ensures { result ≡ mark_of bytes.now }
{
    u64::from(bytes[0]) * 256 + u64::from(bytes[1])
}

impl Stream {
    // The next n bytes.
    pub fn whole(self, system: System, input: &mut [u8], out: &[u8], n: usize) -> Found
        requires { Fits self × (n ≤ 65536) × (length input.old ≡ 65536) × (length out.now ≡ 65536) }
        ensures { FindsBytes n self result input.old input.new }
    {
        let here = self.want(system, input, out, n);
        if here.end - here.at < n {
            return Found {
                size: 0,
                stream: here,
            };
        }
        Found {
            size: n,
            stream: here,
        }
    }
}
