// The record RW: a reply read by the host library and written again (document 10, "Records that a request brings", W-202), and its line. A reading that is refused
// gives its number and leaves the room as it was.
ghost use Rattle.std.specs.Prelude.{◌≡◌, [], ◌+◌, ◌≤◌, ◌<◌, ◌^◌, length, get_or, drop, replicate};
ghost use Rattle.wire.specs.Wire.{field};
ghost use Rattle.mailbox.specs.State.{ValidDevice, state_of};
ghost use Rattle.wire.specs.Done.{Writes};
ghost use Rattle.wire.specs.Refusal.{done_of};
ghost use Rattle.host_replies.specs.Replies.{read_event_records, read_policy, read_timestamp, read_supported_logs, read_log, read_identity, read_poison_list, read_nothing, write_bytes};
ghost use Rattle.protocol.specs.HostFormats.{opcode_of};
ghost use Rattle.protocol.specs.Relations.{Serves};
ghost use Rattle.host_records.specs.Lines.{line_room};
ghost use Rattle.reply_records.specs.HostRewrites.{read_then, write_events, write_policy, write_time, write_logs, write_fields, write_list, written_again, again_call, serve_again};

use host_records::buffer;
use host_replies::{reply, writing};
use mailbox::device::Device;
use protocol::calls::Served;
use wire::refusal;
use wire::refusal::Refusal;

// Get Event Records.
fn events(bytes: &[u8], room: &mut [u8]) -> Result<usize, Refusal>
    ensures { Writes (read_then (λ x. x.code) (write_events bytes.now) (read_event_records bytes.now) (length room.old)) (done_of result) room.old room.new }
{
    let fields = reply::read_event_records(bytes)?;
    Ok(writing::write_event_records(fields, &bytes[32..], room)?)
}

// Get Event Interrupt Policy.
#[tactic(auto, using(std::proofs::lemmas::Bool::Decides::nat_tests), unfolding(crate::specs::HostRewrites::read_then))]
fn policy(bytes: &[u8], room: &mut [u8]) -> Result<usize, Refusal>
    ensures { Writes (read_then (λ x. x.code) write_policy (read_policy bytes.now) (length room.old)) (done_of result) room.old room.new }
{
    let settings = reply::read_event_interrupt_policy(bytes)?;
    writing::write_event_interrupt_policy(&settings, room)
}

// Get Timestamp.
#[tactic(auto, using(std::proofs::lemmas::Bool::Decides::nat_tests), unfolding(crate::specs::HostRewrites::read_then))]
fn timestamp(bytes: &[u8], room: &mut [u8]) -> Result<usize, Refusal>
    ensures { Writes (read_then (λ x. x.code) write_time (read_timestamp bytes.now) (length room.old)) (done_of result) room.old room.new }
{
    let time = reply::read_timestamp(bytes)?;
    writing::write_timestamp(time, room)
}

// Get Supported Logs.
fn logs(bytes: &[u8], room: &mut [u8]) -> Result<usize, Refusal>
    ensures { Writes (read_then (λ x. x.code) (write_logs bytes.now) (read_supported_logs bytes.now) (length room.old)) (done_of result) room.old room.new }
{
    let count = reply::read_supported_logs(bytes)?;
    Ok(writing::write_supported_logs(count, &bytes[8..], room)?)
}

// Get Log, of which so many bytes were asked for.
#[tactic(auto, using(std::proofs::lemmas::Bool::Decides::nat_tests), unfolding(crate::specs::HostRewrites::read_then))]
fn log(asked: u32, bytes: &[u8], room: &mut [u8]) -> Result<usize, Refusal>
    ensures { Writes (read_then (λ x. x) (λ _. write_bytes bytes.now) (read_log asked bytes.now) (length room.old)) (done_of result) room.old room.new }
{
    reply::read_log(asked, bytes)?;
    writing::write_log(bytes, room)
}

// Identify.
#[tactic(auto, using(std::proofs::lemmas::Bool::Decides::nat_tests), unfolding(crate::specs::HostRewrites::read_then))]
fn identity(bytes: &[u8], room: &mut [u8]) -> Result<usize, Refusal>
    ensures { Writes (read_then (λ x. x.code) write_fields (read_identity bytes.now) (length room.old)) (done_of result) room.old room.new }
{
    let fields = reply::read_identity(bytes)?;
    writing::write_identity(fields, room)
}

// Get Poison List.
fn list(bytes: &[u8], room: &mut [u8]) -> Result<usize, Refusal>
    ensures { Writes (read_then (λ x. x.code) (write_list bytes.now) (read_poison_list bytes.now) (length room.old)) (done_of result) room.old room.new }
{
    let fields = reply::read_poison_list(bytes)?;
    Ok(writing::write_poison_list(fields, &bytes[32..], room)?)
}

// A command for which no reply is named.
#[tactic(auto, using(std::proofs::lemmas::Bool::Decides::nat_tests), unfolding(crate::specs::HostRewrites::read_then))]
fn nothing(bytes: &[u8], room: &mut [u8]) -> Result<usize, Refusal>
    ensures { Writes (read_then (λ x. x) (λ _. write_bytes []) (read_nothing bytes.now) (length room.old)) (done_of result) room.old room.new }
{
    reply::read_nothing(bytes)?;
    writing::write_nothing(room)
}

// The reply of a command, read and written again by its opcode.
#[tactic(auto, using(std::proofs::lemmas::Bool::Decides::nat_tests), unfolding(crate::specs::HostRewrites::written_again))]
fn rewrite(opcode: u64, asked: u32, bytes: &[u8], room: &mut [u8]) -> Result<usize, Refusal>
    ensures { Writes (written_again opcode asked bytes.now (length room.old)) (done_of result) room.old room.new }
{
    match opcode {
        0x0100 => events(bytes, room),
        0x0102 => policy(bytes, room),
        0x0300 => timestamp(bytes, room),
        0x0400 => logs(bytes, room),
        0x0401 => log(asked, bytes, room),
        0x4000 => identity(bytes, room),
        0x4300 => list(bytes, room),
        _ => nothing(bytes, room),
    }
}

// RW (opcode 2, asked 4, room 2, fill 1, length 2, reply): the calls, with a buffer of `room` bytes.
fn call_again(bytes: &[u8], reply: &mut [u8]) -> Result<usize, Refusal>
    requires { (13 ≤ length bytes.now) × (length reply.old ≡ field bytes.now 8 2) }
    ensures { Writes (again_call bytes.now) (done_of result) (replicate (field bytes.now 8 2) (get_or bytes.now 10 0)) reply.new }
{
    let opcode = wire::get(bytes, 2, 2);
    let asked = wire::get(bytes, 4, 4) as u32;
    buffer::fill(reply, bytes[10]);
    rewrite(opcode, asked, &bytes[13..], reply)
}

// RW: the return number, and what came back in the buffer.
pub fn again(device: Device, bytes: &[u8], reply: &mut [u8], out: &mut [u8], used: usize) -> Served
    requires { ValidDevice device × (13 ≤ length bytes.now) × (field bytes.now 8 2 ≤ 4096) × (length reply.old ≡ field bytes.now 8 2) × (used + line_room ≤ length out.old) }
    ensures { Serves (serve_again (state_of device) bytes.now) used result out.old out.new }
{
    let written = call_again(bytes, reply);
    let end = buffer::put_line(
        out,
        used,
        b'R',
        b'W',
        refusal::code_of(&written),
        reply,
        written.unwrap_or(0),
        bytes[10],
    );
    Served { used: end, device }
}
