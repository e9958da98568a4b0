// The lines that are printed for records (document 01, "Bench program"): the mark, the return number, and what comes after it. The caller has seen
// to the room of 4,200 bytes.
ghost use Rattle.std.specs.Prelude.{◌≡◌, cond, [], ◌∷◌, ◌+◌, ◌≤◌, length};
ghost use Rattle.protocol.specs.Records.{EV};
ghost use Rattle.protocol.specs.Relations.{PutsLine};
ghost use Rattle.bench.specs.Lines.{command_line, told_line};

use protocol::output;

// CM: the return number, the length of the reply, and its bytes, if there are any. (A refused command has a reply of length 0.)
pub(crate) fn put_command(out: &mut [u8], used: usize, code: u16, reply: &[u8]) -> usize
    requires { (used + 4200 ≤ length out.old) × (length reply.now ≤ 2048) }
    ensures { PutsLine used (command_line code reply.now) out.old out.new result }
{
    let n = reply.len();
    // By `as`: `u64::from` is a call, whose result each answer would have to equate with the number.
    let at = output::put_columns(out, used, b'C', b'M', &[code as u64, n as u64]);
    if n == 0 {
        return output::end_line(out, at);
    }
    let end = output::put_bytes(out, at, reply, n);
    output::end_line(out, end)
}

// EV, MD and LT: the mark and the return number; if that is 0, then the other numbers.
pub(crate) fn put_told(
    out: &mut [u8],
    used: usize,
    first: u8,
    second: u8,
    code: u16,
    numbers: &[u64],
) -> usize
    requires { (used + 4200 ≤ length out.old) × (length numbers.now ≤ 2) }
    ensures { PutsLine used (told_line (first ∷ second ∷ []) code numbers.now) out.old out.new result }
{
    // By `as`: `u64::from` is a call, whose result each answer would have to equate with the number.
    let at = output::put_columns(out, used, first, second, &[code as u64]);
    if code != 0 {
        return output::end_line(out, at);
    }
    let end = output::put_each(out, at, numbers);
    output::end_line(out, end)
}

// EV: the return number, then 1 for stored or 0 for not.
pub(crate) fn put_event(out: &mut [u8], used: usize, code: u16, stored: bool) -> usize
    requires { used + 4200 ≤ length out.old }
    ensures { PutsLine used (told_line EV code (cond stored 1 0 ∷ [])) out.old out.new result }
{
    put_told(out, used, b'E', b'V', code, &[output::bit(stored)])
}
