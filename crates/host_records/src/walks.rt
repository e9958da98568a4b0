// The record WK: the walk of the device's poison list (document 10, "Records that a request brings", W-202), and its line.
ghost use Rattle.std.specs.Prelude.{◌≡◌, ◌+◌, ◌≤◌, length, get_or, replicate};
ghost use Rattle.wire.specs.Wire.{field};
ghost use Rattle.mailbox.specs.State.{ValidDevice, state_of};
ghost use Rattle.wire.specs.Done.{Writes};
ghost use Rattle.protocol.specs.Relations.{Serves};
ghost use Rattle.host_records.specs.Lines.{line_room};
ghost use Rattle.host_records.specs.HostWalks.{walk_call, serve_walk};

use crate::buffer;
use host::walk;
use mailbox::device::Device;
use protocol::calls::Served;
use wire::done::Done;

// WK (address 8, lines 8, room 4, fill 1): the call, with a buffer of `room` bytes.
fn call_walk(device: Device, bytes: &[u8], reply: &mut [u8]) -> Done
    requires { ValidDevice device × (23 ≤ length bytes.now) × (length reply.old ≡ field bytes.now 18 4) }
    ensures { Writes (walk_call (state_of device) bytes.now) result (replicate (field bytes.now 18 4) (get_or bytes.now 22 0)) reply.new }
{
    let address = wire::get(bytes, 2, 8);
    let lines = wire::get(bytes, 10, 8);
    buffer::fill(reply, bytes[22]);
    walk::walk(device, address, lines, reply)
}

// WK: the return number, and what came back in the buffer.
pub fn walk(device: Device, bytes: &[u8], reply: &mut [u8], out: &mut [u8], used: usize) -> Served
    requires { ValidDevice device × (23 ≤ length bytes.now) × (length reply.old ≡ field bytes.now 18 4) × (used + line_room ≤ length out.old) }
    ensures { Serves (serve_walk (state_of device) bytes.now) used result out.old out.new }
{
    let done = call_walk(device, bytes, reply);
    let end = buffer::put_line(
        out,
        used,
        b'W',
        b'K',
        done.code,
        reply,
        done.length,
        bytes[22],
    );
    Served { used: end, device }
}
