// The record PC: a command of the second mailbox (document 10, "Records that a request brings", W-208), and its line. It leaves the device, and is lent no label area.
ghost use Rattle.std.specs.Prelude.{◌≡◌, ◌+◌, ◌≤◌, length};
ghost use Rattle.wire.specs.Wire.{field};
ghost use Rattle.wire.specs.Done.{Writes};
ghost use Rattle.mailbox.specs.State.{ValidDevice, state_of};
ghost use Rattle.protocol.specs.Relations.{Serves};
ghost use Rattle.host_records.specs.Lines.{line_room};
ghost use Rattle.probe.specs.PoolRecords.{filled, pool_call, serve_pool};

use host_records::buffer;
use mailbox::device::Device;
use protocol::calls::Served;
use wire::done::Done;

// PC (time 8, opcode 2, room 2, fill 1, length 2, payload): the call, with a buffer of `room` bytes.
fn call_pool(device: Device, bytes: &[u8], reply: &mut [u8]) -> Done
    requires { ValidDevice device × (17 ≤ length bytes.now) × (length reply.old ≡ field bytes.now 12 2) }
    ensures { Writes (pool_call (state_of device) bytes.now) result (filled bytes.now) reply.new }
{
    let time = wire::get(bytes, 2, 8);
    let opcode = wire::get(bytes, 10, 2) as u16;
    buffer::fill(reply, bytes[14]);
    device.pool_command(opcode, &bytes[17..], time, reply)
}

// PC: the return number, and what came back in the buffer.
pub(crate) fn pool(
    device: Device,
    bytes: &[u8],
    reply: &mut [u8],
    out: &mut [u8],
    used: usize,
) -> Served
    requires { ValidDevice device × (17 ≤ length bytes.now) × (length reply.old ≡ field bytes.now 12 2) × (field bytes.now 12 2 ≤ 4096) × (used + line_room ≤ length out.old) }
    ensures { Serves (serve_pool (state_of device) bytes.now) used result out.old out.new }
{
    let done = call_pool(device, bytes, reply);
    let end = buffer::put_line(
        out,
        used,
        b'P',
        b'C',
        done.code,
        reply,
        done.length,
        bytes[14],
    );
    Served { used: end, device }
}
