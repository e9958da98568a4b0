// The walk of a device's poison list (document 02, W-202): "ask for a range, and where the reply says more, halve the range and ask for each half, down to one
// line, an odd line going to the second half".
ghost use Rattle.std.specs.Prelude.{◌≡◌, ◌+◌, ◌-◌, ◌*◌, ◌≤◌, length};
ghost use Rattle.mailbox.specs.State.{ValidDevice, lines_of, state_of};
ghost use Rattle.list_commands.specs.PoisonCommands.{range_code};
ghost use Rattle.wire.specs.Done.{Writes};
ghost use Rattle.host.specs.Walk.{first_half};
ghost use Rattle.host.specs.Walking.{Askable, RangeTold, Copied, Wrote, range_answer, walk_of, walk_answer};

use host_requests::request;
use mailbox::device::Device;
use wire::done::Done;
use wire::returns;

// The step of the walk: how many lines the first half of a range has, from the reply for the range and its number of lines; 0 where the range is not halved.
// The walk below takes it over a device at hand, and a tool whose device is behind a real mailbox takes it over each reply that it gets.
#[tactic(auto, using(crate::proofs::WalkReplies::half_cases))]
pub fn first_half(reply: &[u8], lines: u64) -> u64
    ensures { result ≡ first_half reply.now lines }
{
    match reply.first() {
        // fewer than two lines are not halved: this is then 0
        Some(&flags) if flags & 1 != 0 => lines / 2,
        _ => 0,
    }
}

// Asks a device for the records of some lines from an address on, by Get Poison List. The command changes nothing: the device of the answer is not kept. A device wants a label area with
// every command (document 02, W-206), and this one does not look into it: it is lent one of zeros made here, so that who walks needs none.
fn ask(device: Device, address: u64, lines: u64, reply: &mut [u8]) -> Done
    requires { ValidDevice device }
    ensures answer { Writes (range_answer device address lines (length reply.old)) result reply.old reply.new }
    ensures code { 2048 ≤ length reply.old → result.code ≡ range_code (lines_of (state_of device)) address lines }
{
    let mut payload = [0u8; 16];
    // never refused: its 16 bytes are the room's
    let _ = request::get_poison_list(address, lines, &mut payload);
    let mut area = [0u8; 4096];
    let answer = device.command(0x4300, &payload, 0, &mut area, reply);
    Done {
        code: answer.code,
        length: answer.length,
    }
}

// What the reply for a range says: its records are all in the reply, of so many bytes; or it is halved, with so many lines in the first half.
enum Asked {
    Whole(usize),
    Halved(u64),
}

// The same for a range of the device's lines, which it does not refuse.
fn ask_lines(device: Device, from: u64, lines: u64, reply: &mut [u8]) -> Asked
    requires { Askable device from lines × (2048 ≤ length reply.old) }
    ensures { RangeTold device from lines result reply.new }
{
    let size = ask(device, from * 64, lines, reply).length;
    match first_half(reply, lines) {
        0 => Asked::Whole(size),
        half => Asked::Halved(half),
    }
}

// How many records the walk over the lines from `from` on gives. The scratch has each reply in turn, at every depth.
fn need(device: Device, from: u64, lines: u64, scratch: &mut [u8]) -> usize
    requires { Askable device from lines × (2048 ≤ length scratch.old) }
    ensures { result ≡ length (walk_of device from lines) }
{
    match ask_lines(device, from, lines, scratch) {
        Asked::Whole(size) => (size - 32) / 16,
        Asked::Halved(half) => {
            let first = need(device, from, half, scratch);
            let second = need(device, from + half, lines - half, scratch);
            first + second
        }
    }
}

// Copies the records of a reply of so many bytes, which begin at byte 32, to the room from index `at` on, and answers the index past them.
fn copy_records(reply: &[u8], size: usize, room: &mut [u8], at: usize) -> usize
    requires { (32 ≤ size) × (size ≤ length reply.now) × (at + (size - 32) ≤ length room.old) }
    ensures { Copied reply.now size at result room.old room.new }
{
    wire::copy(reply, 32, size - 32, room, at);
    at + (size - 32)
}

// Writes the records of that walk to the room from index `at` on, and answers the index past them.
fn write(
    device: Device,
    from: u64,
    lines: u64,
    scratch: &mut [u8],
    room: &mut [u8],
    at: usize,
) -> usize
    requires { Askable device from lines × (2048 ≤ length scratch.old) × (at + 16 * length (walk_of device from lines) ≤ length room.old) }
    ensures { Wrote (walk_of device from lines) at result room.old room.new }
{
    match ask_lines(device, from, lines, scratch) {
        Asked::Whole(size) => copy_records(scratch, size, room, at),
        Asked::Halved(half) => {
            let next = write(device, from, half, scratch, room, at);
            write(device, from + half, lines - half, scratch, room, next)
        }
    }
}

// Walks the poison list over some lines from an address on: writes the records to the room, or refuses and leaves the room as it was. The device is asked for
// the whole range first: where it refuses, its number is the walk's. How many records there are is found before the first is written, by the same recursion.
// A room of 5,120 bytes is enough on every device (`walk_enough` of proofs/WalkCounts.antt). The stack: a level of the recursion takes some 7.8 KB, since the device
// is handed on by value; there are at most 27 levels (`walk_deep`), with the request some 224 KB, by the frames of the compiled code.
#[tactic(auto, using(crate::proofs::Halvings::walking))]
pub fn walk(device: Device, address: u64, lines: u64, room: &mut [u8]) -> Done
    requires { ValidDevice device }
    ensures { Writes (walk_answer device address lines (length room.old)) result room.old room.new }
{
    let mut scratch = [0u8; 2048];
    let asked = ask(device, address, lines, &mut scratch);
    if asked.code != returns::SUCCESS {
        return Done {
            code: asked.code,
            length: 0,
        };
    }
    let from = address / 64;
    let number = need(device, from, lines, &mut scratch);
    if room.len() < 16 * number {
        return Done {
            code: returns::SMALL_BUFFER,
            length: 0,
        };
    }
    let length = write(device, from, lines, &mut scratch, room, 0);
    Done {
        code: returns::SUCCESS,
        length,
    }
}
