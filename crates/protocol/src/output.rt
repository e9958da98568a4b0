// Text put into the output buffer (document 01, "Bench program"; document 10, "Rules"). Each function gives the place after what it put; its caller has seen to the room.
ghost use Rattle.std.specs.Prelude.{◌≡◌, [], ◌∷◌, ◌++◌, ◌+◌, ◌*◌, ◌≤◌, ◌<◌, length, take, cond};
ghost use Rattle.protocol.specs.Text.{hex_digit, hex, column, columns, line_end, numbers_line, bad_line, last_line};
ghost use Rattle.protocol.specs.Relations.{Puts, PutsLine};

// A space and a number in decimal.
pub fn put_number(out: &mut [u8], at: usize, n: u64) -> usize
    requires { at + 21 ≤ length out.old }
    ensures { Puts at (column n) out.old out.new result }
{
    let mut buffer = itoa::Buffer::new();
    let digits = buffer.format(n).as_bytes();
    let k = digits.len();
    out[at] = b' ';
    let end = at + 1 + k;
    out[at + 1..end].copy_from_slice(digits);
    end
}

// A hexadecimal digit, in lower case.
fn digit(n: u8) -> u8
    requires { n < 16 }
    ensures { result ≡ hex_digit n }
{
    if n < 10 { n + 48 } else { n + 87 }
}

// A space and the first n bytes in hexadecimal.
pub fn put_bytes(out: &mut [u8], at: usize, bytes: &[u8], n: usize) -> usize
    requires { (n ≤ length bytes.now) × (at + 1 + 2 * n ≤ length out.old) }
    ensures { Puts at (32 ∷ hex (take n bytes.now)) out.old out.new result }
{
    out[at] = b' ';
    let mut to = at + 1;
    for &b in &bytes[..n] {
        out[to] = digit(b / 16);
        out[to + 1] = digit(b % 16);
        to += 2;
    }
    to
}

// A column for each number.
pub fn put_each(out: &mut [u8], at: usize, numbers: &[u64]) -> usize
    requires { at + 21 * length numbers.now ≤ length out.old }
    ensures { Puts at (columns numbers.now) out.old out.new result }
{
    let mut to = at;
    for &n in numbers {
        to = put_number(out, to, n);
    }
    to
}

// A line's start: the mark's two letters, and a column for each number.
pub fn put_columns(out: &mut [u8], at: usize, first: u8, second: u8, numbers: &[u64]) -> usize
    requires { at + 2 + 21 * length numbers.now ≤ length out.old }
    ensures { Puts at ((first ∷ second ∷ []) ++ columns numbers.now) out.old out.new result }
{
    out[at] = first;
    out[at + 1] = second;
    put_each(out, at + 2, numbers)
}

// A line of numbers.
pub fn put_numbers(out: &mut [u8], at: usize, first: u8, second: u8, numbers: &[u64]) -> usize
    requires { at + 3 + 21 * length numbers.now ≤ length out.old }
    ensures { PutsLine at (numbers_line (first ∷ second ∷ []) numbers.now) out.old out.new result }
{
    let end = put_columns(out, at, first, second, numbers);
    end_line(out, end)
}

// The number printed for yes or no: 1 or 0.
pub fn bit(b: bool) -> u64
    ensures { result ≡ cond b 1 0 }
{
    u64::from(b)
}

// A line's end.
pub fn end_line(out: &mut [u8], at: usize) -> usize
    requires { at < length out.old }
    ensures { Puts at line_end out.old out.new result }
{
    out[at] = b'\n';
    at + 1
}

// The line BAD, with the offset of the mark at which the program stops.
pub fn put_bad(out: &mut [u8], at: usize, offset: u64) -> usize
    requires { at + 25 ≤ length out.old }
    ensures { Puts at (bad_line offset) out.old out.new result }
{
    out[at..at + 3].copy_from_slice(b"BAD");
    let end = put_number(out, at + 3, offset);
    end_line(out, end)
}

// Where no record is served: nothing more to print at the end of the input, where no byte is left, and otherwise the line BAD.
pub fn stop(out: &mut [u8], used: usize, left: usize, offset: u64) -> usize
    requires { used + 25 ≤ length out.old }
    ensures { PutsLine used (last_line left offset) out.old out.new result }
{
    if left == 0 {
        return used;
    }
    put_bad(out, used, offset)
}
