// The calls of the records that both programs have alike (document 01, "Bench program"; document 10, "Records of the base"), at the record's fields.
ghost use Rattle.std.specs.Prelude.{◌≡◌, ◌≤◌, length};
ghost use Rattle.wire.specs.Wire.{field};
ghost use Rattle.mailbox.specs.declared.device.Device.{Device};
ghost use Rattle.mailbox.specs.State.{ValidDevice, state_of};
ghost use Rattle.mailbox.specs.Ending.{AfterEnding};
ghost use Rattle.mailbox.specs.Relations.{Makes, MediaDone, LineDone};
ghost use Rattle.protocol.specs.Calls.{new_call, media_call, line_call};

use mailbox::device::{Device, Made};
use mailbox::device_calls::{LineAnswer, MediaAnswer};

// A record served: the device that follows, and the bytes of the output buffer that are not written yet, with the record's line.
#[derive(Clone, Copy, Debug, PartialEq, Eq)]
pub struct Served {
    pub used: usize,
    pub device: Device,
}

// NW (volatile 2, persistent 2): the device made.
pub fn make(bytes: &[u8]) -> Made
    requires { 6 ≤ length bytes.now }
    ensures { Makes (new_call bytes.now) result }
{
    let volatile = wire::get(bytes, 2, 2) as u16;
    let persistent = wire::get(bytes, 4, 2) as u16;
    Device::make(volatile, persistent)
}

// MD (time 8, address 8, lines 4, type 1).
pub fn media(device: Device, bytes: &[u8]) -> MediaAnswer
    requires { ValidDevice device × (23 ≤ length bytes.now) }
    ensures { AfterEnding device (field bytes.now 2 8) (λ (e : Device). MediaDone (media_call (state_of device) bytes.now) e result) }
{
    let time = wire::get(bytes, 2, 8);
    let address = wire::get(bytes, 10, 8);
    let count = wire::get(bytes, 18, 4) as u32;
    device.media_report(time, address, count, bytes[22])
}

// LT (address 8).
pub fn line(device: Device, bytes: &[u8]) -> LineAnswer
    requires { ValidDevice device × (10 ≤ length bytes.now) }
    ensures { LineDone (line_call (state_of device) bytes.now) result }
{
    let address = wire::get(bytes, 2, 8);
    device.line_test(address)
}
