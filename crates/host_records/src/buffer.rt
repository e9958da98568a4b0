// The buffer that a call writes, and the line that tells what came back in it (document 10, "Rules", "room, fill").
#![tactic(auto, using(crate::proofs::BufferLaws::putting))]

ghost use Rattle.std.specs.Prelude.{◌≡◌, [], ◌∷◌, ◌+◌, ◌*◌, ◌≤◌, length, take, drop, replicate};
ghost use Rattle.protocol.specs.Text.{bytes_column};
ghost use Rattle.protocol.specs.Relations.{Puts, PutsLine};
ghost use Rattle.host_records.specs.Lines.{minus, still, buffer_columns, buffer_line, line_room};

use protocol::output;

// The room that a line can take.
pub const LINE_ROOM: usize = 20000;

// Sets every byte.
pub fn fill(buffer: &mut [u8], byte: u8)
    ensures { buffer.new ≡ replicate (length buffer.old) byte }
{
    buffer.fill(byte);
}

// Whether the bytes from index n on are all `byte`.
fn kept(buffer: &[u8], n: usize, byte: u8) -> bool
    requires { n ≤ length buffer.now }
    ensures { result ≡ still byte (drop n buffer.now) }
{
    for &kept in &buffer[n..] {
        if kept != byte {
            return false;
        }
    }
    true
}

// A column: a space and the first n bytes in hexadecimal, or a minus sign where there are none.
pub fn put_some(out: &mut [u8], at: usize, bytes: &[u8], n: usize) -> usize
    requires { (n ≤ length bytes.now) × (at + 2 + 2 * n ≤ length out.old) }
    ensures { Puts at (bytes_column minus (take n bytes.now)) out.old out.new result }
{
    if n == 0 {
        out[at] = b' ';
        out[at + 1] = b'-';
        return at + 2;
    }
    output::put_bytes(out, at, bytes, n)
}

// The columns of a call that wrote n bytes of the buffer: the mark's letters, the return number, n, the bytes, and whether the others are still `byte`.
pub fn put_buffer(
    out: &mut [u8],
    used: usize,
    first: u8,
    second: u8,
    code: u16,
    buffer: &[u8],
    n: usize,
    byte: u8,
) -> usize
    requires { (n ≤ length buffer.now) × (n ≤ 5120) × (used + line_room ≤ length out.old) }
    ensures { Puts used (buffer_columns (first ∷ second ∷ []) code n byte buffer.now) out.old out.new result }
{
    // By `as`: `u64::from` is a call, whose result each answer would have to equate with the number.
    let numbers = [code as u64, n as u64];
    let head = output::put_columns(out, used, first, second, &numbers);
    let at = put_some(out, head, buffer, n);
    let others = kept(buffer, n, byte);
    output::put_number(out, at, output::bit(others))
}

// Its line, where no column follows.
pub fn put_line(
    out: &mut [u8],
    used: usize,
    first: u8,
    second: u8,
    code: u16,
    buffer: &[u8],
    n: usize,
    byte: u8,
) -> usize
    requires { (n ≤ length buffer.now) × (n ≤ 5120) × (used + line_room ≤ length out.old) }
    ensures { PutsLine used (buffer_line (first ∷ second ∷ []) code n byte buffer.now) out.old out.new result }
{
    let end = put_buffer(out, used, first, second, code, buffer, n, byte);
    output::end_line(out, end)
}
