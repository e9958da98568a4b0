// Each record given to the device, and its line printed (document 01, "Bench program"). The device of some 8 KB goes by value; each function that
// takes it has one caller, so that the compiler inlines it and drops copies. Each arm of the loop stores the device that follows itself, and a line
// test stores none: a device handed through one more function would be one more copy.
ghost use Rattle.std.specs.Prelude.{◌≡◌, ◌+◌, ◌≤◌, ◌<◌, length};
ghost use Rattle.wire.specs.Wire.{field};
ghost use Rattle.mailbox.specs.declared.device.Device.{Device};
ghost use Rattle.mailbox.specs.State.{ValidDevice, state_of};
ghost use Rattle.mailbox.specs.Ending.{AfterEnding};
ghost use Rattle.mailbox.specs.Relations.{Answered, EventDone};
ghost use Rattle.labels.specs.Labels.{zero_area};
ghost use Rattle.protocol.specs.Stream.{Fits};
ghost use Rattle.protocol.specs.Calls.{new_call};
ghost use Rattle.protocol.specs.Relations.{PutsLine, Serves};
ghost use Rattle.protocol.specs.Runs.{machine_of, Ends};
ghost use Rattle.bench.specs.Calls.{command_call, area_left, event_call, first_record, serve_command, serve_event, serve_media, serve_line, bench};
ghost use Rattle.bench.specs.Runs.{Runs};
ghost use Rattle.bench.specs.Relations.{Begins, kept_of, Leaves};

use crate::lines;
use mailbox::device::{Answer, Device};
use mailbox::device_calls::EventAnswer;
use mailbox::line_status;
use protocol::calls::Served;
use protocol::formats::Format;
use protocol::records::{CM, EV, LT, MD, mark};
use protocol::stream::{Stream, System};
use protocol::{calls, formats, output, stream};

// The device made by NW, its return number, and the bytes of the output buffer that are not written yet.
#[derive(Clone, Copy, Debug, PartialEq, Eq)]
pub struct Begun {
    pub code: u16,
    pub used: usize,
    pub device: Device,
}

// CM (time 8, opcode 2, length 2, payload): the call.
fn call_command(device: Device, bytes: &[u8], area: &mut [u8], reply: &mut [u8]) -> Answer
    requires { ValidDevice device × (14 ≤ length bytes.now) × (length reply.old ≡ 2048) }
    ensures { AfterEnding device (field bytes.now 2 8) (λ (e : Device). Answered (command_call (kept_of device area.old) bytes.now) e result reply.old reply.new) × (area.new ≡ area_left (kept_of device area.old) bytes.now result.code) }
{
    let time = wire::get(bytes, 2, 8);
    let opcode = wire::get(bytes, 10, 2) as u16;
    device.command(opcode, &bytes[14..], time, area, reply)
}

// EV (time 8, log 1, record 128): the call.
fn call_event(device: Device, bytes: &[u8]) -> EventAnswer
    requires { ValidDevice device × (139 ≤ length bytes.now) }
    ensures { AfterEnding device (field bytes.now 2 8) (λ (e : Device). EventDone (event_call (state_of device) bytes.now) e result) }
{
    let time = wire::get(bytes, 2, 8);
    device.event_report(time, bytes[10], &bytes[11..139])
}

// CM: the return number, the length of the reply and its bytes.
fn command(
    device: Device,
    bytes: &[u8],
    area: &mut [u8],
    reply: &mut [u8],
    out: &mut [u8],
    used: usize,
) -> Served
    requires { ValidDevice device × (14 ≤ length bytes.now) × (length reply.old ≡ 2048) × (used + 4200 ≤ length out.old) }
    ensures { Leaves (serve_command (kept_of device area.old) bytes.now) used result area.new out.old out.new }
{
    let answer = call_command(device, bytes, area, reply);
    let used = lines::put_command(out, used, answer.code, &reply[..answer.length]);
    Served {
        used,
        device: answer.device,
    }
}

// MD: the return number, and how many lines were stored and dropped.
fn media(device: Device, bytes: &[u8], out: &mut [u8], used: usize) -> Served
    requires { ValidDevice device × (23 ≤ length bytes.now) × (used + 4200 ≤ length out.old) }
    ensures { Serves (serve_media (state_of device) bytes.now) used result out.old out.new }
{
    let answer = calls::media(device, bytes);
    // By `as`: `u64::from` is a call, whose result each answer would have to equate with the number.
    let numbers = [answer.stored as u64, answer.dropped as u64];
    let used = lines::put_told(out, used, b'M', b'D', answer.code, &numbers);
    Served {
        used,
        device: answer.device,
    }
}

// LT: the return number, the answer's number and the type. The device stays, and none is handed back.
fn line(device: Device, bytes: &[u8], out: &mut [u8], used: usize) -> usize
    requires { ValidDevice device × (10 ≤ length bytes.now) × (used + 4200 ≤ length out.old) }
    ensures { PutsLine used (serve_line (state_of device) bytes.now).line out.old out.new result }
{
    let told = calls::line(device, bytes);
    let number = line_status::status_number(told.answer);
    let kind = line_status::status_type(told.answer);
    lines::put_told(out, used, b'L', b'T', told.code, &[number, kind])
}

// Serves the records after the first. A proved loop has to end: it does at an offset that no input reaches.
fn serve(
    made: Device,
    start: Stream,
    system: System,
    input: &mut [u8],
    out: &mut [u8],
    area: &mut [u8],
    reply: &mut [u8],
) -> usize
    requires { ValidDevice made × Fits start × (0 < start.offset) × (length input.old ≡ 65536) × (length out.old ≡ 65536) × (length reply.old ≡ 2048) }
    ensures { (result ≤ 65536) × Ends bench (machine_of (kept_of made area.old) start input.old out.old) result out.new }
{
    let mut device = made;
    let mut s = start;
    while s.offset < 9223372036854775808 {
        let found = formats::next(Format::Bench, s, system, input, out);
        let here = found.stream;
        let used = stream::make_room(system.output, out, here.used, 4200);
        let at = here.at;
        if found.size == 0 {
            return output::stop(out, used, here.end - at, here.offset);
        }
        let mut rest = here.past(found.size);
        let bytes = &input[at..rest.at];
        match mark(bytes) {
            CM => {
                let served = command(device, bytes, area, reply, out, used);
                device = served.device;
                rest.used = served.used;
            }
            EV => {
                let answer = call_event(device, bytes);
                device = answer.device;
                rest.used = lines::put_event(out, used, answer.code, answer.stored);
            }
            MD => {
                let served = media(device, bytes, out, used);
                device = served.device;
                rest.used = served.used;
            }
            LT => rest.used = line(device, bytes, out, used),
            _ => unreachable!(),
        }
        s = rest;
    }
    s.used
}

// NW (volatile 2, persistent 2): the device made.
fn begin(bytes: &[u8], out: &mut [u8]) -> Begun
    requires { (6 ≤ length bytes.now) × (4200 ≤ length out.old) }
    ensures { Begins (first_record bytes.now) (new_call bytes.now).code result out.old out.new }
{
    let made = calls::make(bytes);
    // By `as`: `u64::from` is a call, whose result each answer would have to equate with the number.
    let used = output::put_numbers(out, 0, b'N', b'W', &[made.code as u64]);
    Begun {
        code: made.code,
        used,
        device: made.device,
    }
}

// Makes the device by the first record and serves the others: how many bytes of the output buffer are not written yet. The label area starts as zeros.
pub(crate) fn run(
    system: System,
    input: &mut [u8],
    out: &mut [u8],
    area: &mut [u8],
    reply: &mut [u8],
) -> usize
    requires { (length input.old ≡ 65536) × (length out.old ≡ 65536) × (length reply.old ≡ 2048) × (area.old ≡ zero_area) }
    ensures { (result ≤ 65536) × Runs result out.new }
{
    let start = Stream::new();
    let found = formats::next(Format::Bench, start, system, input, out);
    let here = found.stream;
    let at = here.at;
    if found.size == 0 {
        return output::stop(out, 0, here.end - at, here.offset);
    }
    let mut rest = here.past(found.size);
    let begun = begin(&input[at..rest.at], out);
    if begun.code != 0 {
        return begun.used;
    }
    rest.used = begun.used;
    serve(begun.device, rest, system, input, out, area, reply)
}
