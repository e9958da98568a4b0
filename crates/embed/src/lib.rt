// The device behind a pointer, for Rust to call, and for C through crate `embed_c`, which exports these functions under their names. A function here calls
// the mailbox's, which changes the device where it lies (document 02, W-203), and answers in numbers. Event status hands on the device by value and make stores one: what the compiler
// leaves of these copies is measured and not proved.
// What a caller owes, and nothing here checks: the device was made by `kulduvost_make` and changed by these functions alone, nothing else uses it during a call, the lengths
// that come with pointers are true, and no two of the areas handed over overlap.
#![tactic(auto)]

ghost use Rattle.std.specs.Prelude.{◌≡◌, ◌+◌, length};
ghost use Rattle.mailbox.specs.State.{ValidDevice, state_of};
ghost use Rattle.mailbox.specs.Mailbox.{outcome, area_after};
ghost use Rattle.mailbox.specs.Pool.{pool_answer};
ghost use Rattle.settings.specs.Relations.{Replied};
ghost use Rattle.mailbox.specs.DeviceCalls.{make, event_report, media_report, line_test, event_status, damage_total};
ghost use Rattle.mailbox.specs.Relations.{Answered, Makes, EventDone, MediaDone, StatusGiven};
ghost use Rattle.mailbox.specs.Ending.{AfterEnding};
ghost use Rattle.mailbox.specs.declared.device.Device.{Device};
ghost use Rattle.embed.specs.Left.{made, answered, pool_told, event_told, media_told, LineTold, device_size};

use events::status::Status;
use mailbox::device::Device;
use mailbox::{by_parts, pool};
use poison::line_test::LineTest;
use wire::returns;

// The answer to a command: the return number, the number of the vector to raise (document 02, W-204; 0 for none) and the length of the reply.
#[repr(C)]
#[derive(Clone, Copy, Debug, PartialEq, Eq)]
pub struct Done {
    pub code: u16,
    pub vector: u8,
    pub length: usize,
}

// The answer to a command of the second mailbox (document 02, W-208): the return number and the length of the reply. It has no vector: none of its commands raises one.
#[repr(C)]
#[derive(Clone, Copy, Debug, PartialEq, Eq)]
pub struct PoolDone {
    pub code: u16,
    pub length: usize,
}

// The answer to an event report: the return number, whether the record was stored, and the number of the vector to raise, 0 for none.
#[repr(C)]
#[derive(Clone, Copy, Debug, PartialEq, Eq)]
pub struct Event {
    pub code: u16,
    pub stored: bool,
    pub vector: u8,
}

// The answer to a media report: the return number, and the lines stored and dropped.
#[repr(C)]
#[derive(Clone, Copy, Debug, PartialEq, Eq)]
pub struct Media {
    pub code: u16,
    pub stored: u32,
    pub dropped: u32,
}

// The answer to a line test: the return number, document 01's number of the answer (0 clean, 1 damaged, 2 unknown; 3 disabled, document 02, W-207) and the type of the damage, 0 where there is none.
#[repr(C)]
#[derive(Clone, Copy, Debug, PartialEq, Eq)]
pub struct Line {
    pub code: u16,
    pub answer: u8,
    pub kind: u8,
}

// The bytes that a device takes, for a caller that does not know its layout.
pub fn kulduvost_device_size() -> usize
    ensures { result ≡ device_size }
{
    7672
}

// Makes a device of so many units behind the pointer; where it refuses, the device of one volatile unit. What lay there before is not asked to be a device that was made.
// Ensures that the number and the device left are those of `make`, and that this device is valid.
pub fn kulduvost_make(device: &mut Device, volatile: u16, persistent: u16) -> u16
    ensures { Makes (make volatile persistent) (made result device.new) }
{
    let a = Device::make(volatile, persistent);
    *device = a.device;
    a.code
}

// A command, with the caller's time. The reply is written to the lent buffer, the label area that is lent is written by Set LSA alone, and the device behind the pointer is the one that
// follows.
// Requires a valid device. Ensures that the number, the length, the vector, every byte of the buffer and the device left are those of `outcome`, that every byte of the area is that of
// `area_after`, that a refusal leaves the device that the end of a due Sanitize leaves, the very same where none is due (`AfterEnding`), and that the device left is valid.
pub fn kulduvost_command(
    device: &mut Device,
    opcode: u16,
    payload: &[u8],
    time: u64,
    area: &mut [u8],
    reply: &mut [u8],
) -> Done
    requires { ValidDevice device.old }
    ensures { AfterEnding device.old time (λ (e : Device). Answered (outcome (state_of device.old) opcode payload.now time area.old (length reply.old)) e (answered result device.new) reply.old reply.new) × (area.new ≡ area_after opcode payload.now result.code area.old) }
{
    let told = device.run(opcode, payload, time, area, reply);
    Done {
        code: told.code,
        vector: told.vector,
        length: told.length,
    }
}

// A command of the second mailbox, the pool manager's, with the caller's time (document 02, W-208). The reply is written to the lent buffer; nothing is stored to the device, and a due Sanitize is not ended. Of the device the
// poison list and the log that the payload names are lent to be read, and the clock and the policy are handed on.
// Requires a valid device, and leaves it. Ensures that the number, the length and every byte of the buffer are those of `pool_answer`.
pub fn kulduvost_pool_command(
    device: &Device,
    opcode: u16,
    payload: &[u8],
    time: u64,
    reply: &mut [u8],
) -> PoolDone
    requires { ValidDevice device.now }
    ensures { Replied (pool_answer (state_of device.now) opcode payload.now time (length reply.old)) (pool_told result) reply.old reply.new }
{
    let k = by_parts::log_named(payload);
    let done = pool::pool_command_in(
        &device.poison,
        &device.logs[k],
        device.clock,
        device.policy,
        device.volatile,
        device.persistent,
        opcode,
        payload,
        time,
        reply,
    );
    PoolDone {
        code: done.code,
        length: done.length,
    }
}

// Event report of a record to a log, at the caller's time.
// Requires a valid device. Ensures that the answer and the device left are those of `event_report`, that a refusal leaves the device that the end of a due Sanitize leaves, the very same where none is due, and that the device left is valid.
pub fn kulduvost_event_report(device: &mut Device, time: u64, log: u8, event: &[u8]) -> Event
    requires { ValidDevice device.old }
    ensures { AfterEnding device.old time (λ (e : Device). EventDone (event_report (state_of device.old) time log event.now) e (event_told result device.new)) }
{
    let told = device.take_event(time, log, event);
    Event {
        code: told.code,
        stored: told.stored,
        vector: told.vector,
    }
}

// Media report of damage: so many lines from an address on, of a type, at the caller's time.
// Requires a valid device. Ensures that the answer and the device left are those of `media_report`, that a refusal leaves the device that the end of a due Sanitize leaves, the very same where none is due, and that the device left is valid.
pub fn kulduvost_media_report(
    device: &mut Device,
    time: u64,
    address: u64,
    lines: u32,
    kind: u8,
) -> Media
    requires { ValidDevice device.old }
    ensures { AfterEnding device.old time (λ (e : Device). MediaDone (media_report (state_of device.old) time address lines kind) e (media_told result device.new)) }
{
    let told = device.take_media(time, address, lines, kind);
    Media {
        code: told.code,
        stored: told.stored,
        dropped: told.dropped,
    }
}

// Line test: what the host is told of the line at an address, with its answer as numbers. A refused test answers unknown, with type 0. It carries no time, and ends no Sanitize. Nothing
// of the list is copied.
// Requires a valid device, and leaves it. Ensures the answer of `line_test`.
pub fn kulduvost_line_test(device: &Device, address: u64) -> Line
    requires { ValidDevice device.now }
    ensures { LineTold (line_test (state_of device.now) address) result }
{
    let code = by_parts::check_address(device.volatile, device.persistent, address);
    if code != returns::SUCCESS {
        return Line {
            code,
            answer: 2,
            kind: 0,
        };
    }
    if device.media.disabled {
        return Line {
            code,
            answer: 3,
            kind: 0,
        };
    }
    let (answer, kind) = match device.poison.test((address / 64) as u32) {
        LineTest::Clean => (0, 0),
        LineTest::Damaged(kind) => (1, kind),
        LineTest::Unknown => (2, 0),
    };
    Line { code, answer, kind }
}

// Event status: which logs wait, how many, and the highest-numbered one, 5 where none waits.
// Requires a valid device, and leaves it. Ensures the answer of `event_status`.
pub fn kulduvost_event_status(device: &Device) -> Status
    requires { ValidDevice device.now }
    ensures { StatusGiven (event_status (state_of device.now)) result }
{
    Device::event_status(*device)
}

// Damage total: the sum of the entries' lengths, over the list where it lies.
// Requires a valid device, and leaves it. Ensures the answer of `damage_total`.
pub fn kulduvost_damage_total(device: &Device) -> u64
    requires { ValidDevice device.now }
    ensures { result ≡ damage_total (state_of device.now) }
{
    device.poison.total()
}
