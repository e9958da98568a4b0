// The two buffers between the records and the system's calls: bytes read and not yet used, and bytes printed and not yet written.
// What has been printed is written before more is read, so that a caller that waits for an answer gets it.
ghost use Rattle.std.specs.Prelude.{◌≡◌, ◌+◌, ◌^◌, ◌≤◌, ◌<◌, length, take};
ghost use Rattle.wire.specs.Wire.{part};
ghost use Rattle.protocol.specs.Stream.{unread, Fits, Reads, Fills, Wants, Past, with_room};

use std::io::Read;
use std::rt::{Stdin, Stdout};

// The system's two streams that a program goes by: it reads the one and writes the other.
#[derive(Clone, Copy)]
pub struct System {
    pub input: Stdin,
    pub output: Stdout,
}

// The bytes at..end of the input buffer are not used yet; `at` lies `offset` bytes into the input; the first `used` bytes of the output buffer
// are not written yet; `ended` says that a read brought no byte.
#[derive(Clone, Copy, Debug, PartialEq, Eq)]
pub struct Stream {
    pub at: usize,
    pub end: usize,
    pub offset: u64,
    pub used: usize,
    pub ended: bool,
}

// What was read into the input buffer: its new end, and whether the last read brought no byte.
#[derive(Clone, Copy, Debug, PartialEq, Eq)]
pub struct Filled {
    pub end: usize,
    pub ended: bool,
}

// Writes the first n bytes of the output buffer: how many of them are left to write then, which is none. Where a write fails there is nobody to tell. What the
// system's call took no contract of the kit says, and so neither does this one.
pub fn flush(to: Stdout, out: &[u8], n: usize) -> usize
    requires { n ≤ length out.now }
    ensures { result ≡ 0 }
{
    let _ = to.write_all(&out[..n]);
    0
}

// Sees to room for so many bytes more: how many bytes of the output buffer are not written then.
pub fn make_room(to: Stdout, out: &[u8], used: usize, room: usize) -> usize
    requires { (used ≤ 65536) × (room ≤ 65536) × (length out.now ≡ 65536) }
    ensures { (result ≡ with_room room used) × (result + room ≤ 65536) }
{
    if used + room <= 65536 {
        return used;
    }
    flush(to, out, used)
}

// Moves the n bytes from index at on to the front.
fn move_down(input: &mut [u8], at: usize, n: usize)
    requires { at + n ≤ length input.old }
    ensures { take n input.new ≡ part at n input.old }
{
    input.copy_within(at..at + n, 0);
}

// Reads once into the buffer from index end on: how many bytes came, 0 at the end of the input.
fn read_once(mut from: Stdin, input: &mut [u8], end: usize) -> usize
    requires { end ≤ length input.old }
    ensures { Reads end input.old input.new (end + result) }
{
    match from.read(&mut input[end..]) {
        Ok(got) => got,
        Err(_) => 0,
    }
}

// Reads into the buffer from index end on until it holds n bytes or the input ends.
fn read_until(from: Stdin, input: &mut [u8], end: usize, n: usize) -> Filled
    requires { (end ≤ length input.old) × (n ≤ length input.old) }
    ensures { Fills n end input.old input.new result }
{
    let mut e = end;
    while e < n {
        let got = read_once(from, input, e);
        if got == 0 {
            return Filled {
                end: e,
                ended: true,
            };
        }
        e += got;
    }
    Filled {
        end: e,
        ended: false,
    }
}

impl Stream {
    // The stream before anything was read.
    pub fn new() -> Stream
        ensures { result ≡ unread }
    {
        Stream {
            at: 0,
            end: 0,
            offset: 0,
            used: 0,
            ended: false,
        }
    }

    // The stream past a record of so many bytes.
    pub fn past(self, size: usize) -> Stream
        requires { (self.at + size ≤ 65536) × (self.offset + size < 2 ^ 64) }
        ensures { Past self size result }
    {
        Stream {
            at: self.at + size,
            end: self.end,
            offset: self.offset + size as u64,
            used: self.used,
            ended: self.ended,
        }
    }

    // The stream with n bytes or more not used, or with all that the input has left.
    pub fn want(self, system: System, input: &mut [u8], out: &[u8], n: usize) -> Stream
        requires { Fits self × (n ≤ 65536) × (length input.old ≡ 65536) × (length out.now ≡ 65536) }
        ensures { Wants n self result input.old input.new }
    {
        let left = self.end - self.at;
        if n <= left {
            return self;
        }
        let at = self.at;
        let used = self.used;
        let unwritten = flush(system.output, out, used);
        move_down(input, at, left);
        let filled = read_until(system.input, input, left, n);
        Stream {
            at: 0,
            end: filled.end,
            offset: self.offset,
            used: unwritten,
            ended: filled.ended,
        }
    }
}
