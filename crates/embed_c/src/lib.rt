// The library for C and for whoever links with it (`include/kulduvost.h`, `libkulduvost.a`): the functions of crate `embed` exported under their own names, with the C calling convention. Each hands its
// arguments on and ensures, by the same clauses, what that function ensures. What a caller owes is said there.
#![tactic(auto)]

ghost use Rattle.std.specs.Prelude.{◌≡◌, true, false, ◌+◌, ◌≤◌, length};
ghost use Rattle.labels.specs.Labels.{label_size};
ghost use Rattle.poison.specs.State.{capacity, ValidRuns};
ghost use Rattle.poison.specs.LineTest.{list_in};
ghost use Rattle.commands.specs.Numbers.{most_units};
ghost use Rattle.mailbox.specs.State.{ValidDevice, state_of};
ghost use Rattle.mailbox.specs.Mailbox.{outcome, area_after};
ghost use Rattle.mailbox.specs.Pool.{pool_answer};
ghost use Rattle.settings.specs.Relations.{Replied};
ghost use Rattle.mailbox.specs.DeviceCalls.{make, event_report, media_report, line_test, event_status, damage_total};
ghost use Rattle.mailbox.specs.Relations.{Answered, Makes, EventDone, MediaDone, StatusGiven};
ghost use Rattle.mailbox.specs.Ending.{Ends, AfterEnding};
ghost use Rattle.mailbox.specs.declared.device.Device.{Device};
ghost use Rattle.mailbox.specs.ByParts.{of_area, of_list, of_injection, of_log, log_at};
ghost use Rattle.embed.specs.Left.{made, answered, pool_told, LogEmptied, WorkEnded, Commanded, WithoutArea, event_told, media_told, LineTold, seen, device_size};

use embed::{Done, Event, Line, Media, PoolDone};
use events::status::Status;
use mailbox::device::Device;

#[unsafe(no_mangle)]
pub extern "C" fn kulduvost_device_size() -> usize
    ensures { result ≡ device_size }
{
    embed::kulduvost_device_size()
}

#[unsafe(no_mangle)]
pub extern "C" fn kulduvost_make(device: &mut Device, volatile: u16, persistent: u16) -> u16
    ensures { Makes (make volatile persistent) (made result device.new) }
{
    embed::kulduvost_make(device, volatile, persistent)
}

#[unsafe(no_mangle)]
pub extern "C" fn kulduvost_command(
    device: &mut Device,
    opcode: u16,
    payload: &[u8],
    time: u64,
    area: &mut [u8],
    reply: &mut [u8],
) -> Done
    requires { ValidDevice device.old }
    ensures { AfterEnding device.old time (λ (e : Device). Answered (outcome (state_of device.old) opcode payload.now time area.old (length reply.old)) e (answered result device.new) reply.old reply.new) × (area.new ≡ area_after opcode payload.now result.code area.old) }
{
    embed::kulduvost_command(device, opcode, payload, time, area, reply)
}

#[unsafe(no_mangle)]
pub extern "C" fn kulduvost_pool_command(
    device: &Device,
    opcode: u16,
    payload: &[u8],
    time: u64,
    reply: &mut [u8],
) -> PoolDone
    requires { ValidDevice device.now }
    ensures { Replied (pool_answer (state_of device.now) opcode payload.now time (length reply.old)) (pool_told result) reply.old reply.new }
{
    embed::kulduvost_pool_command(device, opcode, payload, time, reply)
}

#[unsafe(no_mangle)]
pub extern "C" fn kulduvost_event_report(
    device: &mut Device,
    time: u64,
    log: u8,
    event: &[u8],
) -> Event
    requires { ValidDevice device.old }
    ensures { AfterEnding device.old time (λ (e : Device). EventDone (event_report (state_of device.old) time log event.now) e (event_told result device.new)) }
{
    embed::kulduvost_event_report(device, time, log, event)
}

#[unsafe(no_mangle)]
pub extern "C" fn kulduvost_media_report(
    device: &mut Device,
    time: u64,
    address: u64,
    lines: u32,
    kind: u8,
) -> Media
    requires { ValidDevice device.old }
    ensures { AfterEnding device.old time (λ (e : Device). MediaDone (media_report (state_of device.old) time address lines kind) e (media_told result device.new)) }
{
    embed::kulduvost_media_report(device, time, address, lines, kind)
}

#[unsafe(no_mangle)]
pub extern "C" fn kulduvost_line_test(device: &Device, address: u64) -> Line
    requires { ValidDevice device.now }
    ensures { LineTold (line_test (state_of device.now) address) result }
{
    embed::kulduvost_line_test(device, address)
}

#[unsafe(no_mangle)]
pub extern "C" fn kulduvost_event_status(device: &Device) -> Status
    requires { ValidDevice device.now }
    ensures { StatusGiven (event_status (state_of device.now)) result }
{
    embed::kulduvost_event_status(device)
}

#[unsafe(no_mangle)]
pub extern "C" fn kulduvost_damage_total(device: &Device) -> u64
    requires { ValidDevice device.now }
    ensures { result ≡ damage_total (state_of device.now) }
{
    embed::kulduvost_damage_total(device)
}
