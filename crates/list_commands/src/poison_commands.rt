// The poison commands: the checks of an address, then the poison list's own functions (document 01, "Poison list"). No sum of an address and a
// number of lines is made in 64 bits before it is known to fit: "Sums are of whole numbers."
ghost use Rattle.std.specs.Prelude.{◌≡◌, cond, ◌+◌, ◌≤◌, ◌<◌, leb, length};
ghost use Rattle.wire.specs.Wire.{splice};
ghost use Rattle.poison.specs.State.{capacity, state_of, ValidList};
ghost use Rattle.wire.specs.Returns.{invalid_input, invalid_address, need};
ghost use Rattle.list_commands.specs.PoisonCommands.{aligned, line_code, range_code};
ghost use Rattle.list_commands.specs.PoisonCommands.{list_flags, list_header, get_poison_list, injection_record, clear_poison};
ghost use Rattle.list_commands.specs.Relations.{ListDone, InjectDone};
ghost use Rattle.wire.specs.Done.{Writes as Replied};

use commands::admission;
use poison::inject::Injected;
use poison::list::PoisonList;
use wire::done::Done;
use wire::returns;

// What Inject Poison gives: its return number, and whether it added an entry.
#[derive(Clone, Copy, Debug, PartialEq, Eq)]
pub struct ListInjected {
    pub code: u16,
    pub added: bool,
}

// The check that an address is a line's.
fn check_aligned(address: u64) -> u16
    ensures { result ≡ need (aligned address) invalid_input 0 }
{
    if address % 64 != 0 {
        returns::INVALID_INPUT
    } else {
        returns::SUCCESS
    }
}

// The check that n lines from a line on end on a device of `lines` lines. n is tested by itself first: the sum is then small.
fn check_end(lines: u32, line: u64, n: u64) -> u16
    requires { line < 288230376151711744 }
    ensures { result ≡ need (leb (line + n) lines) invalid_address 0 }
{
    let all = u64::from(lines);
    if all < n {
        return returns::INVALID_ADDRESS;
    }
    if all < line + n {
        returns::INVALID_ADDRESS
    } else {
        returns::SUCCESS
    }
}

// The checks of one line of a device of `lines` lines, 0 where there is nothing to refuse.
pub fn check_line(lines: u32, address: u64) -> u16
    ensures { result ≡ line_code lines address }
{
    check_range(lines, address, 1)
}

// The checks of n lines from an address on, 0 where there is nothing to refuse.
pub fn check_range(lines: u32, address: u64, n: u64) -> u16
    ensures { result ≡ range_code lines address n }
{
    let aligned = check_aligned(address);
    let inside = check_end(lines, address / 64, n);
    admission::first_refusal(aligned, inside)
}

// Inject Poison in the list.
pub fn inject(list: &mut PoisonList, lines: u32, payload: &[u8]) -> ListInjected
    requires { ValidList lines list.old × (lines ≤ capacity) × (length payload.now ≡ 8) }
    ensures { InjectDone lines list.old payload.now result.code result.added list.new }
{
    let address = wire::get(payload, 0, 8);
    let code = check_line(lines, address);
    if code != returns::SUCCESS {
        return ListInjected { code, added: false };
    }
    let line = (address / 64) as u32;
    match list.inject(line) {
        Injected::Added => ListInjected {
            code: returns::SUCCESS,
            added: true,
        },
        Injected::Covered => ListInjected {
            code: returns::SUCCESS,
            added: false,
        },
        Injected::Full => ListInjected {
            code: returns::INJECT_LIMIT,
            added: false,
        },
    }
}

// The record of the event that an injection reports where it adds an entry: 128 bytes, its length at byte 16, the address at bytes 48 to 55 (document 02, W-204). Handle and
// time are the report's to set.
pub fn injection_record(address: u64) -> [u8; 128]
    ensures { result ≡ injection_record address }
{
    let mut record = [0u8; 128];
    wire::put(&mut record, 16, 1, 128);
    wire::put(&mut record, 48, 8, address);
    record
}

// Clear Poison, at a device time. The payload's data is the caller's to write.
pub fn clear(list: &mut PoisonList, lines: u32, payload: &[u8], time: u64) -> u16
    requires { ValidList lines list.old × (lines ≤ capacity) × (length payload.now ≡ 72) }
    ensures { ListDone (clear_poison lines (state_of list.old) payload.now time) lines list.old result list.new }
{
    let address = wire::get(payload, 0, 8);
    let code = check_line(lines, address);
    if code == returns::SUCCESS {
        let line = (address / 64) as u32;
        list.clear(line, time);
    }
    code
}

// The flags of Get Poison List's reply, where n entries share a line with the range.
fn flags(overflow: bool, n: usize) -> u8
    ensures { result ≡ list_flags overflow n }
{
    u8::from(126 < n) | (u8::from(overflow) << 1)
}

// The overflow time, 0 while the flag is clear.
fn time_shown(overflow: bool, time: u64) -> u64
    ensures { result ≡ cond overflow time 0 }
{
    if overflow { time } else { 0 }
}

// The 32 bytes before the records of Get Poison List's reply, where n entries share a line with the range.
fn put_header(reply: &mut [u8], list: &PoisonList, n: usize, count: usize)
    requires { (32 ≤ length reply.old) × (count < 65536) }
    ensures { reply.new ≡ splice 0 (list_header list.now.overflow list.now.overflow_time n count) reply.old }
{
    let overflow = list.overflow;
    wire::put(reply, 0, 1, u64::from(flags(overflow, n)));
    wire::put(reply, 1, 1, 0);
    wire::put(reply, 2, 8, time_shown(overflow, list.overflow_time));
    wire::put(reply, 10, 2, count as u64);
    wire::put(reply, 12, 20, 0);
}

// Get Poison List. The records are written first: that tells how many entries share a line with the range, which the header says.
pub fn get(list: &PoisonList, lines: u32, payload: &[u8], reply: &mut [u8]) -> Done
    requires { ValidList lines list.now × (lines ≤ capacity) × (length payload.now ≡ 16) × (2048 ≤ length reply.old) }
    ensures { Replied (get_poison_list lines (state_of list.now) payload.now) result reply.old reply.new }
{
    let address = wire::get(payload, 0, 8);
    let n = wire::get(payload, 8, 8);
    let code = check_range(lines, address, n);
    if code != returns::SUCCESS {
        return Done { code, length: 0 };
    }
    let from = (address / 64) as u32;
    let found = list.put_records(from, n as u32, 126, reply, 32);
    let number = found.min(126);
    put_header(reply, list, found, number);
    Done {
        code: returns::SUCCESS,
        length: 32 + 16 * number,
    }
}
