// Each record given to the device, and its line printed (document 10, "Records of the base" and the rows of W-204 and W-206). A record's function gives the device
// that follows. The records of the host library, the second mailbox's and the lines of the label store's records have modules of their own.
ghost use Rattle.std.specs.Prelude.{◌≡◌, ◌+◌, ◌≤◌, ◌<◌, length};
ghost use Rattle.wire.specs.Wire.{field};
ghost use Rattle.mailbox.specs.declared.device.Device.{Device};
ghost use Rattle.mailbox.specs.State.{ValidDevice, state_of};
ghost use Rattle.mailbox.specs.Ending.{AfterEnding};
ghost use Rattle.mailbox.specs.Relations.{Answered, EventDone};
ghost use Rattle.mailbox.specs.DeviceCalls.{new_device};
ghost use Rattle.protocol.specs.Stream.{unread};
ghost use Rattle.protocol.specs.Formats.{Ready};
ghost use Rattle.protocol.specs.Relations.{Serves};
ghost use Rattle.protocol.specs.Runs.{machine_of, Ends};
ghost use Rattle.host_records.specs.Lines.{line_room};
ghost use Rattle.probe.specs.LabelRecords.{zeros, kept_first};
ghost use Rattle.probe.specs.Calls.{command_call, area_left, event_call, serve_new, serve_command, serve_lent, serve_event, serve_media, serve_line, serve_status, serve_total, serve_device, serve_record, probe};
ghost use Rattle.probe.specs.PoolRecords.{filled};
ghost use Rattle.probe.specs.Relations.{kept_of, Leaves};

use crate::{label_records, pool_records};
use host_records::buffer::LINE_ROOM;
use host_records::{buffer, requests, walks};
use mailbox::device::{Answer, Device};
use mailbox::device_calls::EventAnswer;
use mailbox::line_status;
use protocol::calls::Served;
use protocol::formats::Format;
use protocol::records::{AB, AR, CM, DT, ES, EV, LT, MD, NW, PC, RP, RQ, RW, WK, mark};
use protocol::stream::{Stream, System};
use protocol::{calls, formats, output, stream};
use reply_records::{replies, rewrites};
use settings::vector::vector_number;

// A record served: the device that follows, how many bytes of the label store are lent from then on, and the bytes of the output buffer that are not written yet, with
// the record's line.
#[derive(Clone, Copy, Debug, PartialEq, Eq)]
pub struct ServedRecord {
    pub used: usize,
    pub device: Device,
    pub lent: usize,
}

// NW (volatile 2, persistent 2): the device made takes the place of the old one, also where it stands beside a refusal.
fn make(bytes: &[u8], out: &mut [u8], used: usize) -> Served
    requires { (6 ≤ length bytes.now) × (used + line_room ≤ length out.old) }
    ensures { Serves (serve_new bytes.now) used result out.old out.new }
{
    let made = calls::make(bytes);
    let numbers = [u64::from(made.code)];
    let end = output::put_numbers(out, used, b'N', b'W', &numbers);
    Served {
        used: end,
        device: made.device,
    }
}

// CM (time 8, opcode 2, room 2, fill 1, length 2, payload): the call, with the label area lent and a buffer of `room` bytes.
fn call_command(device: Device, bytes: &[u8], area: &mut [u8], reply: &mut [u8]) -> Answer
    requires { ValidDevice device × (17 ≤ length bytes.now) × (length reply.old ≡ field bytes.now 12 2) }
    ensures { AfterEnding device (field bytes.now 2 8) (λ (e : Device). Answered (command_call (state_of device) area.old bytes.now) e result (filled bytes.now) reply.new) × (area.new ≡ area_left area.old bytes.now result.code) }
{
    let time = wire::get(bytes, 2, 8);
    let opcode = wire::get(bytes, 10, 2) as u16;
    buffer::fill(reply, bytes[14]);
    device.command(opcode, &bytes[17..], time, area, reply)
}

// CM: the return number, what came back in the buffer, and the vector to raise.
fn command(
    device: Device,
    bytes: &[u8],
    area: &mut [u8],
    reply: &mut [u8],
    out: &mut [u8],
    used: usize,
) -> Served
    requires { ValidDevice device × (17 ≤ length bytes.now) × (length reply.old ≡ field bytes.now 12 2) × (field bytes.now 12 2 ≤ 4096) × (used + line_room ≤ length out.old) }
    ensures { Serves (serve_command (state_of device) area.old bytes.now) used result out.old out.new × (area.new ≡ area_left area.old bytes.now (command_call (state_of device) area.old bytes.now).code) }
{
    let answer = call_command(device, bytes, area, reply);
    let vector = u64::from(vector_number(answer.vector));
    let columns = buffer::put_buffer(
        out,
        used,
        b'C',
        b'M',
        answer.code,
        reply,
        answer.length,
        bytes[14],
    );
    let last = output::put_number(out, columns, vector);
    let end = output::end_line(out, last);
    Served {
        used: end,
        device: answer.device,
    }
}

// CM, lent the first `lent` bytes of the label store, and as much of the buffer as the record asks for.
fn command_lent(
    device: Device,
    lent: usize,
    bytes: &[u8],
    store: &mut [u8],
    reply: &mut [u8],
    out: &mut [u8],
    used: usize,
) -> ServedRecord
    requires { ValidDevice device × (17 ≤ length bytes.now) × (field bytes.now 12 2 ≤ 4096) × (lent ≤ 8192) × (length store.old ≡ 8192) × (length reply.old ≡ 65536) × (used + line_room ≤ length out.old) }
    ensures { Leaves (serve_lent (kept_of device store.old lent) bytes.now) used result store.new out.old out.new }
{
    let room = wire::get(bytes, 12, 2) as usize;
    let served = command(
        device,
        bytes,
        &mut store[..lent],
        &mut reply[..room],
        out,
        used,
    );
    ServedRecord {
        used: served.used,
        device: served.device,
        lent,
    }
}

// EV (time 8, log 1, length 2, record): the call.
fn call_event(device: Device, bytes: &[u8]) -> EventAnswer
    requires { ValidDevice device × (13 ≤ length bytes.now) }
    ensures { AfterEnding device (field bytes.now 2 8) (λ (e : Device). EventDone (event_call (state_of device) bytes.now) e result) }
{
    let time = wire::get(bytes, 2, 8);
    device.event_report(time, bytes[10], &bytes[13..])
}

// EV: the return number, stored or not, and the vector to raise.
fn event(device: Device, bytes: &[u8], out: &mut [u8], used: usize) -> Served
    requires { ValidDevice device × (13 ≤ length bytes.now) × (used + line_room ≤ length out.old) }
    ensures { Serves (serve_event (state_of device) bytes.now) used result out.old out.new }
{
    let answer = call_event(device, bytes);
    let stored = output::bit(answer.stored);
    let vector = u64::from(vector_number(answer.vector));
    let numbers = [u64::from(answer.code), stored, vector];
    let end = output::put_numbers(out, used, b'E', b'V', &numbers);
    Served {
        used: end,
        device: answer.device,
    }
}

// MD: the return number, and how many lines were stored and dropped.
fn media(device: Device, bytes: &[u8], out: &mut [u8], used: usize) -> Served
    requires { ValidDevice device × (23 ≤ length bytes.now) × (used + line_room ≤ length out.old) }
    ensures { Serves (serve_media (state_of device) bytes.now) used result out.old out.new }
{
    let answer = calls::media(device, bytes);
    let numbers = [
        u64::from(answer.code),
        u64::from(answer.stored),
        u64::from(answer.dropped),
    ];
    let end = output::put_numbers(out, used, b'M', b'D', &numbers);
    Served {
        used: end,
        device: answer.device,
    }
}

// LT: the return number, the answer's number and the type.
fn line(device: Device, bytes: &[u8], out: &mut [u8], used: usize) -> Served
    requires { ValidDevice device × (10 ≤ length bytes.now) × (used + line_room ≤ length out.old) }
    ensures { Serves (serve_line (state_of device) bytes.now) used result out.old out.new }
{
    let told = calls::line(device, bytes);
    let number = line_status::status_number(told.answer);
    let kind = line_status::status_type(told.answer);
    let numbers = [u64::from(told.code), number, kind];
    let end = output::put_numbers(out, used, b'L', b'T', &numbers);
    Served { used: end, device }
}

// ES: which logs are waiting, how many, and the highest.
fn status(device: Device, out: &mut [u8], used: usize) -> Served
    requires { ValidDevice device × (used + line_room ≤ length out.old) }
    ensures { Serves (serve_status (state_of device)) used result out.old out.new }
{
    let told = device.event_status();
    let waiting = u64::from(told.waiting);
    let highest = u64::from(told.highest);
    let numbers = [u64::from(told.bits), waiting, highest];
    let end = output::put_numbers(out, used, b'E', b'S', &numbers);
    Served { used: end, device }
}

// DT: the sum of entry lengths.
fn total(device: Device, out: &mut [u8], used: usize) -> Served
    requires { ValidDevice device × (used + line_room ≤ length out.old) }
    ensures { Serves (serve_total (state_of device)) used result out.old out.new }
{
    let numbers = [device.damage_total()];
    let end = output::put_numbers(out, used, b'D', b'T', &numbers);
    Served { used: end, device }
}

// Serves a record that sees the device alone, by its mark. A call is lent as much of the buffer as the record asks for.
fn serve_device(
    device: Device,
    bytes: &[u8],
    reply: &mut [u8],
    out: &mut [u8],
    used: usize,
) -> Served
    requires { ValidDevice device × Ready bytes.now × (length reply.old ≡ 65536) × (used + line_room ≤ length out.old) }
    ensures { Serves (serve_device (state_of device) bytes.now) used result out.old out.new }
{
    match mark(bytes) {
        NW => make(bytes, out, used),
        EV => event(device, bytes, out, used),
        MD => media(device, bytes, out, used),
        LT => line(device, bytes, out, used),
        ES => status(device, out, used),
        DT => total(device, out, used),
        RQ => {
            let room = wire::get(bytes, 4, 2) as usize;
            requests::request(device, bytes, &mut reply[..room], out, used)
        }
        RP => replies::read_reply(device, bytes, out, used),
        RW => {
            let room = wire::get(bytes, 8, 2) as usize;
            rewrites::again(device, bytes, &mut reply[..room], out, used)
        }
        WK => {
            let room = wire::get(bytes, 18, 4) as usize;
            walks::walk(device, bytes, &mut reply[..room], out, used)
        }
        PC => {
            let reply_room = wire::get(bytes, 12, 2) as usize;
            pool_records::pool(device, bytes, &mut reply[..reply_room], out, used)
        }
        _ => Served { used, device },
    }
}

// Serves a record by its mark. AR (size 4) says how many bytes of the label store are lent from then on; AB prints some of its bytes.
fn serve(
    device: Device,
    lent: usize,
    bytes: &[u8],
    store: &mut [u8],
    reply: &mut [u8],
    out: &mut [u8],
    used: usize,
) -> ServedRecord
    requires { ValidDevice device × Ready bytes.now × (lent ≤ 8192) × (length store.old ≡ 8192) × (length reply.old ≡ 65536) × (used + line_room ≤ length out.old) }
    ensures { Leaves (serve_record (kept_of device store.old lent) bytes.now) used result store.new out.old out.new }
{
    match mark(bytes) {
        CM => command_lent(device, lent, bytes, store, reply, out, used),
        AR => {
            let size = wire::get(bytes, 2, 4) as usize;
            let end = label_records::put_area(out, used);
            ServedRecord {
                used: end,
                device,
                lent: size,
            }
        }
        AB => {
            let end = label_records::put_stored(bytes, store, out, used);
            ServedRecord {
                used: end,
                device,
                lent,
            }
        }
        _ => {
            let served = serve_device(device, bytes, reply, out, used);
            ServedRecord {
                used: served.used,
                device: served.device,
                lent,
            }
        }
    }
}

// Serves the records: how many bytes of the output buffer are not written yet. The first record is a make, so that the device before it serves none. The label store
// starts as zeros. A proved loop has to end: it does at an offset that no input reaches.
pub(crate) fn run(
    system: System,
    input: &mut [u8],
    out: &mut [u8],
    store: &mut [u8],
    reply: &mut [u8],
) -> usize
    requires { (length input.old ≡ 65536) × (length out.old ≡ 65536) × (length reply.old ≡ 65536) × (store.old ≡ zeros) }
    ensures { (result ≤ 65536) × Ends probe (machine_of (kept_first (new_device 1 0)) unread input.old out.old) result out.new }
{
    let made = Device::make(1, 0);
    let mut device = made.device;
    let mut lent: usize = 4096;
    let mut s = Stream::new();
    while s.offset < 9223372036854775808 {
        let found = formats::next(Format::Probe, s, system, input, out);
        let here = found.stream;
        let used = stream::make_room(system.output, out, here.used, LINE_ROOM);
        if found.size == 0 {
            return output::stop(out, used, here.end - here.at, here.offset);
        }
        let mut rest = here.past(found.size);
        let bytes = &input[here.at..rest.at];
        let served = serve(device, lent, bytes, store, reply, out, used);
        device = served.device;
        lent = served.lent;
        rest.used = served.used;
        s = rest;
    }
    s.used
}
