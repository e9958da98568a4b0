// The record RP: a reply read by the host library (document 10, "Records that a request brings", "Fields of a reply", W-202), and its line. A reading that is refused
// prints its number, and for 0002h the place.
ghost use Rattle.std.specs.Prelude.{◌≡◌, ◌++◌, ◌+◌, ◌*◌, ◌≤◌, ◌<◌, length, drop};
ghost use Rattle.wire.specs.Wire.{field};
ghost use Rattle.wire.specs.Refusal.{refusal_number};
ghost use Rattle.mailbox.specs.State.{ValidDevice, state_of};
ghost use Rattle.host_replies.specs.declared.counted.Kind.TheVariants.{EventRecords, SupportedLogs, PoisonList};
ghost use Rattle.host_replies.specs.Replies.{read_event_records, read_policy, read_timestamp, read_supported_logs, read_log, read_identity, read_poison_list, read_nothing};
ghost use Rattle.protocol.specs.Text.{columns};
ghost use Rattle.protocol.specs.Relations.{Puts, PutsLine, Serves};
ghost use Rattle.host_records.specs.Lines.{line_room};
ghost use Rattle.reply_records.specs.HostReplies.{each_of, record_columns, record_room, read_line, refusal_line, line_of, events_line, policy_line, time_line, logs_line, log_line, identity_numbers, identity_line, list_line, nothing_line, reply_line, serve_reply};

use host_records::buffer;
use host_replies::counted::Kind;
use host_replies::reply;
use host_replies::reply::IdentityFields;
use mailbox::device::Device;
use protocol::calls::Served;
use protocol::output;
use wire::refusal::Refusal;

// A reading that is refused.
fn put_refusal(out: &mut [u8], used: usize, refusal: Refusal, place: usize) -> usize
    requires { used + line_room ≤ length out.old }
    ensures { PutsLine used (refusal_line (refusal_number refusal) place) out.old out.new result }
{
    let number = u64::from(u16::from(refusal));
    match refusal {
        Refusal::InvalidInput => output::put_numbers(
            out,
            used,
            b'R',
            b'P',
            &[number, place as u64],
        ),
        _ => output::put_numbers(out, used, b'R', b'P', &[number]),
    }
}

// An event record's bytes.
fn put_event(out: &mut [u8], at: usize, records: &[u8], i: usize) -> usize
    requires { at + 257 ≤ length out.old }
    ensures { Puts at (record_columns EventRecords records.now i) out.old out.new result × (result ≤ at + 257) }
{
    let bytes = reply::event_record(records, i);
    output::put_bytes(out, at, bytes, bytes.len())
}

// A log's identifier and size.
fn put_log(out: &mut [u8], at: usize, records: &[u8], i: usize) -> usize
    requires { at + 54 ≤ length out.old }
    ensures { Puts at (record_columns SupportedLogs records.now i) out.old out.new result × (result ≤ at + 54) }
{
    let told = reply::supported_log(records, i);
    let to = output::put_bytes(out, at, &told.identifier, 16);
    output::put_number(out, to, u64::from(told.size))
}

// A poison record's address, type and lines.
fn put_poison(out: &mut [u8], at: usize, records: &[u8], i: usize) -> usize
    requires { at + 63 ≤ length out.old }
    ensures { Puts at (record_columns PoisonList records.now i) out.old out.new result × (result ≤ at + 63) }
{
    let told = reply::poison_record(records, i);
    output::put_each(
        out,
        at,
        &[told.address, u64::from(told.kind), u64::from(told.lines)],
    )
}

// Record i of some records.
fn put_record(kind: Kind, out: &mut [u8], at: usize, records: &[u8], i: usize) -> usize
    requires { at + record_room kind ≤ length out.old }
    ensures { Puts at (record_columns kind records.now i) out.old out.new result × (result ≤ at + record_room kind) }
{
    match kind {
        Kind::EventRecords => put_event(out, at, records, i),
        Kind::SupportedLogs => put_log(out, at, records, i),
        Kind::PoisonList => put_poison(out, at, records, i),
    }
}

// The first n records.
fn put_records(kind: Kind, out: &mut [u8], at: usize, records: &[u8], n: usize) -> usize
    requires { at + record_room kind * n ≤ length out.old }
    ensures { Puts at (each_of (record_columns kind records.now) n) out.old out.new result × (result ≤ at + record_room kind * n) }
{
    let mut to = at;
    for i in 0..n {
        to = put_record(kind, out, to, records, i);
    }
    to
}

// The line of a reply that is accepted: numbers, and then the first n records.
fn put_counted(
    kind: Kind,
    out: &mut [u8],
    used: usize,
    numbers: &[u64],
    records: &[u8],
    n: usize,
) -> usize
    requires { used + 21 * length numbers.now + record_room kind * n + 3 ≤ length out.old }
    ensures { PutsLine used (read_line numbers.now (each_of (record_columns kind records.now) n)) out.old out.new result }
{
    let at = output::put_columns(out, used, b'R', b'P', numbers);
    let end = put_records(kind, out, at, records, n);
    output::end_line(out, end)
}

// Get Event Records: flags, overflow count, first time, last time, record count; the records.
#[tactic(auto, using(crate::proofs::ReplyLaws::lines), unfolding(crate::specs::HostReplies::line_of))]
fn events(out: &mut [u8], used: usize, bytes: &[u8]) -> usize
    requires { (used + line_room ≤ length out.old) × (length bytes.now ≤ 4096) }
    ensures { PutsLine used (line_of (λ x. x.code) (λ x. x.place) (events_line bytes.now) (read_event_records bytes.now)) out.old out.new result }
{
    match reply::read_event_records(bytes) {
        Ok(fields) => {
            let numbers = [
                0,
                u64::from(fields.flags),
                u64::from(fields.overflow_count),
                fields.first_time,
                fields.last_time,
                u64::from(fields.count),
            ];
            let n = usize::from(fields.count);
            put_counted(Kind::EventRecords, out, used, &numbers, &bytes[32..], n)
        }
        Err(refusal) => put_refusal(out, used, Refusal::from(refusal), refusal.place()),
    }
}

// Get Event Interrupt Policy: five settings.
#[tactic(auto, using(crate::proofs::ReplyLaws::lines), unfolding(crate::specs::HostReplies::line_of))]
fn policy(out: &mut [u8], used: usize, bytes: &[u8]) -> usize
    requires { (used + line_room ≤ length out.old) × (length bytes.now ≤ 4096) }
    ensures { PutsLine used (line_of (λ x. x.code) (λ _. 0) policy_line (read_policy bytes.now)) out.old out.new result }
{
    match reply::read_event_interrupt_policy(bytes) {
        Ok(settings) => {
            // By index: a pattern of an array lends its elements, which the check of borrows does not cover there.
            let numbers = [
                0,
                u64::from(settings[0]),
                u64::from(settings[1]),
                u64::from(settings[2]),
                u64::from(settings[3]),
                u64::from(settings[4]),
            ];
            output::put_numbers(out, used, b'R', b'P', &numbers)
        }
        Err(refusal) => put_refusal(out, used, refusal, 0),
    }
}

// Get Timestamp: the time.
#[tactic(auto, using(crate::proofs::ReplyLaws::lines), unfolding(crate::specs::HostReplies::line_of))]
fn timestamp(out: &mut [u8], used: usize, bytes: &[u8]) -> usize
    requires { (used + line_room ≤ length out.old) × (length bytes.now ≤ 4096) }
    ensures { PutsLine used (line_of (λ x. x.code) (λ _. 0) time_line (read_timestamp bytes.now)) out.old out.new result }
{
    match reply::read_timestamp(bytes) {
        Ok(time) => output::put_numbers(out, used, b'R', b'P', &[0, time]),
        Err(refusal) => put_refusal(out, used, refusal, 0),
    }
}

// Get Supported Logs: count; the logs.
#[tactic(auto, using(crate::proofs::ReplyLaws::lines), unfolding(crate::specs::HostReplies::line_of))]
fn logs(out: &mut [u8], used: usize, bytes: &[u8]) -> usize
    requires { (used + line_room ≤ length out.old) × (length bytes.now ≤ 4096) }
    ensures { PutsLine used (line_of (λ x. x.code) (λ x. x.place) (logs_line bytes.now) (read_supported_logs bytes.now)) out.old out.new result }
{
    match reply::read_supported_logs(bytes) {
        Ok(count) => {
            let numbers = [0, u64::from(count)];
            let n = usize::from(count);
            put_counted(Kind::SupportedLogs, out, used, &numbers, &bytes[8..], n)
        }
        Err(refusal) => put_refusal(out, used, Refusal::from(refusal), refusal.place()),
    }
}

// Get Log, of which so many bytes were asked for: the bytes.
#[tactic(auto, using(crate::proofs::ReplyLaws::lines), unfolding(crate::specs::HostReplies::line_of))]
fn log(out: &mut [u8], used: usize, asked: u32, bytes: &[u8]) -> usize
    requires { (used + line_room ≤ length out.old) × (length bytes.now ≤ 4096) }
    ensures { PutsLine used (line_of (λ x. x) (λ _. 0) (log_line bytes.now) (read_log asked bytes.now)) out.old out.new result }
{
    match reply::read_log(asked, bytes) {
        Ok(()) => {
            let at = output::put_columns(out, used, b'R', b'P', &[0]);
            let end = buffer::put_some(out, at, bytes, bytes.len());
            output::end_line(out, end)
        }
        Err(refusal) => put_refusal(out, used, refusal, 0),
    }
}

// Identify: the version, and the numbers after it.
#[tactic(auto, using(crate::proofs::ReplyLaws::lines), unfolding(crate::specs::HostReplies::line_of))]
fn identity(out: &mut [u8], used: usize, bytes: &[u8]) -> usize
    requires { (used + line_room ≤ length out.old) × (length bytes.now ≤ 4096) }
    ensures { PutsLine used (line_of (λ x. x.code) (λ _. 0) identity_line (read_identity bytes.now)) out.old out.new result }
{
    match reply::read_identity(bytes) {
        Ok(fields) => {
            let at = output::put_columns(out, used, b'R', b'P', &[0]);
            let to = output::put_bytes(out, at, &fields.version, 16);
            let end = put_sizes(out, to, fields);
            output::end_line(out, end)
        }
        Err(refusal) => put_refusal(out, used, refusal, 0),
    }
}

// Get Poison List: flags, overflow time, count; the records.
#[tactic(auto, using(crate::proofs::ReplyLaws::lines), unfolding(crate::specs::HostReplies::line_of))]
fn list(out: &mut [u8], used: usize, bytes: &[u8]) -> usize
    requires { (used + line_room ≤ length out.old) × (length bytes.now ≤ 4096) }
    ensures { PutsLine used (line_of (λ x. x.code) (λ x. x.place) (list_line bytes.now) (read_poison_list bytes.now)) out.old out.new result }
{
    match reply::read_poison_list(bytes) {
        Ok(fields) => {
            let numbers = [
                0,
                u64::from(fields.flags),
                fields.overflow_time,
                u64::from(fields.count),
            ];
            let n = usize::from(fields.count);
            put_counted(Kind::PoisonList, out, used, &numbers, &bytes[32..], n)
        }
        Err(refusal) => put_refusal(out, used, Refusal::from(refusal), refusal.place()),
    }
}

// A command for which no reply is named.
#[tactic(auto, using(crate::proofs::ReplyLaws::lines), unfolding(crate::specs::HostReplies::line_of))]
fn nothing(out: &mut [u8], used: usize, bytes: &[u8]) -> usize
    requires { (used + line_room ≤ length out.old) × (length bytes.now ≤ 4096) }
    ensures { PutsLine used (line_of (λ x. x) (λ _. 0) nothing_line (read_nothing bytes.now)) out.old out.new result }
{
    match reply::read_nothing(bytes) {
        Ok(()) => output::put_numbers(out, used, b'R', b'P', &[0]),
        Err(refusal) => put_refusal(out, used, refusal, 0),
    }
}

// The numbers of Identify after the version.
fn put_sizes(out: &mut [u8], at: usize, fields: IdentityFields) -> usize
    requires { at + 273 ≤ length out.old }
    ensures { Puts at (columns (identity_numbers fields)) out.old out.new result × (result ≤ at + 273) }
{
    let numbers = [
        fields.total,
        fields.volatile,
        fields.persistent,
        fields.alignment,
        u64::from(fields.info_log_size),
        u64::from(fields.warning_log_size),
        u64::from(fields.failure_log_size),
        u64::from(fields.fatal_log_size),
        u64::from(fields.label_size),
        u64::from(fields.poison_list_size),
        u64::from(fields.inject_limit),
        u64::from(fields.capabilities),
        u64::from(fields.dynamic_log_size),
    ];
    output::put_each(out, at, &numbers)
}

// The line of a reply, by the opcode.
#[tactic(auto, using(std::proofs::lemmas::Bool::Decides::nat_tests), unfolding(crate::specs::HostReplies::reply_line))]
fn put_reply(out: &mut [u8], used: usize, opcode: u64, asked: u32, bytes: &[u8]) -> usize
    requires { (used + line_room ≤ length out.old) × (length bytes.now ≤ 4096) }
    ensures { PutsLine used (reply_line opcode asked bytes.now) out.old out.new result }
{
    match opcode {
        0x0100 => events(out, used, bytes),
        0x0102 => policy(out, used, bytes),
        0x0300 => timestamp(out, used, bytes),
        0x0400 => logs(out, used, bytes),
        0x0401 => log(out, used, asked, bytes),
        0x4000 => identity(out, used, bytes),
        0x4300 => list(out, used, bytes),
        _ => nothing(out, used, bytes),
    }
}

// RP (opcode 2, asked 4, length 2, reply).
pub fn read_reply(device: Device, bytes: &[u8], out: &mut [u8], used: usize) -> Served
    requires { ValidDevice device × (10 ≤ length bytes.now) × (length bytes.now ≤ 4106) × (used + line_room ≤ length out.old) }
    ensures { Serves (serve_reply (state_of device) bytes.now) used result out.old out.new }
{
    let opcode = wire::get(bytes, 2, 2);
    let asked = wire::get(bytes, 4, 4) as u32;
    let end = put_reply(out, used, opcode, asked, &bytes[10..]);
    Served { used: end, device }
}
