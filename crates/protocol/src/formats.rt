// The records of each program (document 01, "Bench program"; document 10, "Records of the base"): how long each is, and the next one brought whole into
// the input buffer. The sizes of the records of the host library are in `host_formats`, those of the label store's records in `label_formats`.
#![tactic(auto, unfolding(crate::proofs::FormatLaws::sizes, crate::specs::Formats::head, crate::specs::Records::whole))]

ghost use Rattle.std.specs.Prelude.{◌≡◌, true, cond, ◌≤◌, eqb, length};
ghost use Rattle.protocol.specs.declared.formats.Format.TheVariants.{Bench, Probe};
ghost use Rattle.protocol.specs.Stream.{Fits};
ghost use Rattle.protocol.specs.Records.{some_size, mark_of, front_fixed, front_head, front_size};
ghost use Rattle.protocol.specs.HostFormats.{within};
ghost use Rattle.protocol.specs.Formats.{bench_fixed, bench_size, of_command, probe_least, probe_fixed, probe_size, fixed, head, size, FixedPart, Head};
ghost use Rattle.protocol.specs.Relations.{Sizes, Finds};

use crate::records::{AB, AR, CM, DT, ES, EV, Found, LT, MD, NW, PC, RP, RQ, RW, WK, mark};
use crate::stream::{Stream, System};
use crate::{host_formats, label_formats};

// Whose records they are.
#[derive(Clone, Copy, Debug, PartialEq, Eq)]
pub enum Format {
    Bench,
    Probe,
}

// Of `bench`: the bytes of a record's fixed part, its mark with them; none where no record of that mark may stand. NW comes first and once.
fn bench_fixed(first: bool, mark: u64) -> Option<usize>
    ensures { result ≡ some_size (bench_fixed first mark) }
{
    match (first, mark) {
        (true, NW) => Some(6),
        (false, CM) => Some(14),
        (false, EV) => Some(139),
        (false, MD) => Some(23),
        (false, LT) => Some(10),
        _ => None,
    }
}

// Of `bench`: the bytes of a record that begins so; none where its payload is too long.
fn bench_size(head: &[u8]) -> Option<usize>
    requires { Head Bench head.now }
    ensures { Sizes (bench_size head.now) result }
{
    if mark(head) != CM {
        return Some(head.len());
    }
    let payload = wire::get(head, 12, 2) as usize;
    if 2048 < payload {
        return None;
    }
    Some(head.len() + payload)
}

// Of `probe`: the bytes of a record's fixed part, its mark with them; none for an unknown mark.
fn probe_least(mark: u64) -> Option<usize>
    ensures { result ≡ some_size (probe_least mark) }
{
    match mark {
        NW => Some(6),
        CM | PC => Some(17),
        EV => Some(13),
        MD => Some(23),
        LT => Some(10),
        ES | DT => Some(2),
        RQ => Some(7),
        RP => Some(10),
        RW => Some(13),
        WK => Some(23),
        AR | AB => Some(6),
        _ => None,
    }
}

// The same, where the first record must be a make.
fn probe_fixed(first: bool, mark: u64) -> Option<usize>
    ensures { result ≡ some_size (probe_fixed first mark) }
{
    if first && mark != NW {
        return None;
    }
    probe_least(mark)
}

// Of `probe`: a room or a length, none where it is over its limit.
pub(crate) fn within(n: u64) -> Option<usize>
    ensures { result ≡ cond (within n) (Some n) None }
{
    if n <= 4096 { Some(n as usize) } else { None }
}

// Of `probe`: the bytes of a command's record, CM or PC, that begins so; none where its room or its payload is too long.
fn command_size(head: &[u8]) -> Option<usize>
    requires { Head Probe head.now × (17 ≤ length head.now) × (of_command (mark_of head.now) ≡ true) }
    ensures { Sizes (probe_size head.now) result }
{
    within(wire::get(head, 12, 2))?; // the room
    let payload = within(wire::get(head, 15, 2))?;
    Some(head.len() + payload)
}

// Of `probe`: the bytes of an event's record that begins so; none where the event record in it is too long.
fn event_size(head: &[u8]) -> Option<usize>
    requires { Head Probe head.now × (mark_of head.now ≡ EV) }
    ensures { Sizes (probe_size head.now) result }
{
    let length = within(wire::get(head, 11, 2))?;
    Some(head.len() + length)
}

// Of `probe`: the bytes of a record that begins so; none where a size in it is over its limit.
fn probe_size(head: &[u8]) -> Option<usize>
    requires { Head Probe head.now }
    ensures { Sizes (probe_size head.now) result }
{
    match mark(head) {
        CM | PC => command_size(head),
        EV => event_size(head),
        RQ => host_formats::request_size(head),
        RP => host_formats::reply_size(head),
        RW => host_formats::again_size(head),
        WK => host_formats::walk_size(head),
        AR => label_formats::area_size(head),
        AB => label_formats::bytes_size(head),
        _ => Some(head.len()),
    }
}

// The bytes of a record's fixed part; none where no record of that mark may stand.
fn fixed_size(format: Format, first: bool, mark: u64) -> Option<usize>
    ensures { result ≡ some_size (fixed format first mark) }
{
    match format {
        Format::Bench => bench_fixed(first, mark),
        Format::Probe => probe_fixed(first, mark),
    }
}

// The bytes of the head of a record that begins so.
fn head_size(format: Format, part: &[u8]) -> Option<usize>
    requires { FixedPart format part.now }
    ensures { Sizes (head format part.now) result }
{
    match format {
        Format::Bench => Some(part.len()),
        Format::Probe => host_formats::probe_head(part),
    }
}

// The bytes of a record that begins so; none where a size in it is over its limit.
fn whole_size(format: Format, head: &[u8]) -> Option<usize>
    requires { Head format head.now }
    ensures { Sizes (size format head.now) result }
{
    match format {
        Format::Bench => bench_size(head),
        Format::Probe => probe_size(head),
    }
}

// The fixed part of the next record.
fn next_fixed(format: Format, s: Stream, system: System, input: &mut [u8], out: &[u8]) -> Found
    requires { Fits s × (length input.old ≡ 65536) × (length out.now ≡ 65536) }
    ensures { Finds (front_fixed (fixed format (eqb s.offset 0))) s result input.old input.new }
{
    let marked = s.whole(system, input, out, 2);
    if marked.size == 0 {
        return marked;
    }
    let here = marked.stream;
    let at = here.at;
    let fixed = fixed_size(format, s.offset == 0, mark(&input[at..at + 2]));
    here.whole(system, input, out, fixed.unwrap_or(0))
}

// The head of the next record.
fn next_head(format: Format, s: Stream, system: System, input: &mut [u8], out: &[u8]) -> Found
    requires { Fits s × (length input.old ≡ 65536) × (length out.now ≡ 65536) }
    ensures { Finds (front_head (fixed format (eqb s.offset 0)) (head format)) s result input.old input.new }
{
    let part = next_fixed(format, s, system, input, out);
    let n = part.size;
    if n == 0 {
        return part;
    }
    let here = part.stream;
    let at = here.at;
    let size = head_size(format, &input[at..at + n]);
    here.whole(system, input, out, size.unwrap_or(0))
}

// The next record.
pub fn next(format: Format, s: Stream, system: System, input: &mut [u8], out: &[u8]) -> Found
    requires { Fits s × (length input.old ≡ 65536) × (length out.now ≡ 65536) }
    ensures { Finds (front_size (fixed format (eqb s.offset 0)) (head format) (size format)) s result input.old input.new }
{
    let head = next_head(format, s, system, input, out);
    let n = head.size;
    if n == 0 {
        return head;
    }
    let here = head.stream;
    let at = here.at;
    let size = whole_size(format, &input[at..at + n]);
    here.whole(system, input, out, size.unwrap_or(0))
}
