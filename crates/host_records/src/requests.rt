// The record RQ: a request built by the host library (document 10, "Records that a request brings", W-202), and its line. A field stands after the record's fixed
// part, which is opcode 2, room 2, fill 1.
ghost use Rattle.std.specs.Prelude.{◌≡◌, ◌+◌, ◌*◌, ◌≤◌, length, get_or, take, replicate};
ghost use Rattle.wire.specs.Wire.{field, part};
ghost use Rattle.events.specs.Clear.{handles_at};
ghost use Rattle.mailbox.specs.State.{ValidDevice, state_of};
ghost use Rattle.wire.specs.Done.{Writes};
ghost use Rattle.wire.specs.Refusal.{done_of};
ghost use Rattle.host_requests.specs.Requests.{build};
ghost use Rattle.host_requests.specs.Requests as Q;
ghost use Rattle.protocol.specs.HostFormats.{RequestRead};
ghost use Rattle.protocol.specs.Relations.{Serves};
ghost use Rattle.host_records.specs.Lines.{line_room};
ghost use Rattle.host_records.specs.HostRequests.{request_built, serve_request};

use crate::buffer;
use host_requests::request;
use mailbox::device::Device;
use protocol::calls::Served;
use wire::refusal;
use wire::refusal::Refusal;

// The n handles from byte 11 on.
#[tactic(auto, unfolding(events::specs::Clear::handles_at))]
fn read_handles(bytes: &[u8], n: usize, handles: &mut [u16])
    requires { (n ≤ length handles.old) × (11 + 2 * n ≤ length bytes.now) }
    ensures { take n handles.new ≡ handles_at n 11 bytes.now }
{
    for (i, handle) in handles[..n].iter_mut().enumerate() {
        *handle = wire::get(bytes, 11 + 2 * i, 2) as u16;
    }
}

// Clear Event Records: log 1, flags 1, n 2, n handles of 2.
fn clear_event_records(bytes: &[u8], room: &mut [u8]) -> Result<usize, Refusal>
    requires { (11 ≤ length bytes.now) × (field bytes.now 9 2 ≤ 1000) × (11 + 2 * field bytes.now 9 2 ≤ length bytes.now) }
    ensures { Writes (build (Q.clear_event_records (get_or bytes.now 7 0) (get_or bytes.now 8 0) (handles_at (field bytes.now 9 2) 11 bytes.now)) (length room.old)) (done_of result) room.old room.new }
{
    let n = wire::get(bytes, 9, 2) as usize;
    let mut handles = [0u16; 1000];
    read_handles(bytes, n, &mut handles);
    request::clear_event_records(bytes[7], bytes[8], &handles[..n], room)
}

// The request of the record's opcode, with the fields that stand from byte 7 on (`request_of`), built into the room; of an opcode that the record does not know, nothing.
#[tactic(auto, using(std::proofs::lemmas::Bool::Decides::nat_tests), unfolding(protocol::specs::HostFormats::request_head, crate::specs::HostRequests::request_of, crate::specs::HostRequests::request_built, wire::specs::Wire::splice, wire::specs::Wire::part))]
fn build_request(bytes: &[u8], room: &mut [u8]) -> Result<usize, Refusal>
    requires { (7 ≤ length bytes.now) × RequestRead bytes.now }
    ensures { Writes (request_built bytes.now (length room.old)) (done_of result) room.old room.new }
{
    match wire::get(bytes, 2, 2) {
        0x0100 => request::get_event_records(bytes[7], room),
        0x0101 => clear_event_records(bytes, room),
        0x0102 => request::get_event_interrupt_policy(room),
        0x0103 => request::set_event_interrupt_policy(&bytes[8..], room),
        0x0300 => request::get_timestamp(room),
        0x0301 => request::set_timestamp(wire::get(bytes, 7, 8), room),
        0x0400 => request::get_supported_logs(room),
        0x0401 => request::get_log(
            &bytes[7..23],
            wire::get(bytes, 23, 4) as u32,
            wire::get(bytes, 27, 4) as u32,
            room,
        ),
        0x4000 => request::identify(room),
        0x4300 => request::get_poison_list(wire::get(bytes, 7, 8), wire::get(bytes, 15, 8), room),
        0x4301 => request::inject_poison(wire::get(bytes, 7, 8), room),
        0x4302 => request::clear_poison(wire::get(bytes, 7, 8), &bytes[15..79], room),
        _ => Ok(0),
    }
}

// RQ: the call, with a buffer of `room` bytes.
fn call_request(bytes: &[u8], reply: &mut [u8]) -> Result<usize, Refusal>
    requires { (7 ≤ length bytes.now) × RequestRead bytes.now × (length reply.old ≡ field bytes.now 4 2) }
    ensures { Writes (request_built bytes.now (field bytes.now 4 2)) (done_of result) (replicate (field bytes.now 4 2) (get_or bytes.now 6 0)) reply.new }
{
    buffer::fill(reply, bytes[6]);
    build_request(bytes, reply)
}

// RQ: the return number, and what came back in the buffer.
pub fn request(
    device: Device,
    bytes: &[u8],
    reply: &mut [u8],
    out: &mut [u8],
    used: usize,
) -> Served
    requires { ValidDevice device × (7 ≤ length bytes.now) × RequestRead bytes.now × (length reply.old ≡ field bytes.now 4 2) × (used + line_room ≤ length out.old) }
    ensures { Serves (serve_request (state_of device) bytes.now) used result out.old out.new }
{
    let built = call_request(bytes, reply);
    let end = buffer::put_line(
        out,
        used,
        b'R',
        b'Q',
        refusal::code_of(&built),
        reply,
        built.unwrap_or(0),
        bytes[6],
    );
    Served { used: end, device }
}
