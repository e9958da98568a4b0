// The sizes of the records of `probe` that call the host library (document 10, "Records that a request brings", W-202). A record's head has been found; a size over
// its limit, or an opcode that the record does not know, is no record: none.
#![tactic(auto, using(crate::proofs::FormatLaws::request_most), unfolding(crate::proofs::FormatLaws::sizes, crate::proofs::FormatLaws::requests))]

ghost use Rattle.std.specs.Prelude.{◌≡◌, ◌≤◌, length};
ghost use Rattle.protocol.specs.declared.formats.Format.TheVariants.{Probe};
ghost use Rattle.protocol.specs.Records.{some_size, mark_of, RQ, RP, RW, WK};
ghost use Rattle.protocol.specs.HostFormats.{request_head};
ghost use Rattle.protocol.specs.Formats.{probe_head, probe_size, FixedPart, Head};
ghost use Rattle.protocol.specs.Relations.{Sizes};

use crate::formats::within;
use crate::records;

// The bytes of a request's record before its size is known, by its opcode; none for any but the twelve.
fn request_head(opcode: u64) -> Option<usize>
    ensures { result ≡ some_size (request_head opcode) }
{
    match opcode {
        0x0100 => Some(8), // log 1
        0x0101 => Some(11), // log 1, flags 1, n 2
        0x0102 => Some(7),
        0x0103 => Some(8), // n 1
        0x0300 => Some(7),
        0x0301 => Some(15), // value 8
        0x0400 => Some(7),
        0x0401 => Some(31), // identifier 16, offset 4, length 4
        0x4000 => Some(7),
        0x4300 => Some(23), // address 8, lines 8
        0x4301 => Some(15), // address 8
        0x4302 => Some(79), // address 8, data 64
        _ => None,
    }
}

// The bytes of the head of a record that begins so: of RQ (opcode 2, room 2, fill 1) more than its fixed part.
pub(crate) fn probe_head(part: &[u8]) -> Option<usize>
    requires { FixedPart Probe part.now }
    ensures { Sizes (probe_head part.now) result }
{
    if records::mark(part) != records::RQ {
        return Some(part.len());
    }
    within(wire::get(part, 4, 2))?; // the room
    request_head(wire::get(part, 2, 2))
}

// The bytes of RQ: of Clear Event Records n handles come after its head, of Set Event Interrupt Policy n settings.
pub(crate) fn request_size(head: &[u8]) -> Option<usize>
    requires { Head Probe head.now × (mark_of head.now ≡ mark_of RQ) }
    ensures { Sizes (probe_size head.now) result }
{
    match wire::get(head, 2, 2) {
        0x0101 => {
            let n = wire::get(head, 9, 2) as usize;
            if 1000 < n {
                return None;
            }
            Some(head.len() + 2 * n)
        }
        0x0103 => {
            let n = usize::from(head[7]);
            if n < 4 || 5 < n {
                return None;
            }
            Some(head.len() + n)
        }
        _ => Some(head.len()),
    }
}

// The bytes of RP (opcode 2, asked 4, length 2, reply).
pub(crate) fn reply_size(head: &[u8]) -> Option<usize>
    requires { Head Probe head.now × (mark_of head.now ≡ mark_of RP) }
    ensures { Sizes (probe_size head.now) result }
{
    request_head(wire::get(head, 2, 2))?; // an opcode of the twelve
    let length = within(wire::get(head, 8, 2))?;
    Some(head.len() + length)
}

// The bytes of RW (opcode 2, asked 4, room 2, fill 1, length 2, reply).
pub(crate) fn again_size(head: &[u8]) -> Option<usize>
    requires { Head Probe head.now × (mark_of head.now ≡ mark_of RW) }
    ensures { Sizes (probe_size head.now) result }
{
    request_head(wire::get(head, 2, 2))?; // an opcode of the twelve
    within(wire::get(head, 8, 2))?; // the room
    let length = within(wire::get(head, 11, 2))?;
    Some(head.len() + length)
}

// The bytes of WK (address 8, lines 8, room 4, fill 1).
pub(crate) fn walk_size(head: &[u8]) -> Option<usize>
    requires { Head Probe head.now × (mark_of head.now ≡ mark_of WK) }
    ensures { Sizes (probe_size head.now) result }
{
    let room = wire::get(head, 18, 4);
    if 65536 < room {
        return None;
    }
    Some(head.len())
}
