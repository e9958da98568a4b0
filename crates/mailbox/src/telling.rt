// What a part of a device holds, told in the reply of a command that only reads: the commands that both mailboxes have (document 02, W-208) go through these, and Get Poison List through
// `poison_commands::get`. The checks before a command's own are made by the caller.
ghost use Rattle.std.specs.Prelude.{◌≡◌, ◌≤◌, length};
ghost use Rattle.events.specs.Log.{ValidLog};
ghost use Rattle.commands.specs.Commands.{checked};
ghost use Rattle.mailbox.specs.ByParts.{LogTold, Told};

use commands::mailboxes::Mailbox;
use commands::{effects_log, identity};
use events::get;
use events::log::Log;
use settings::clock::Clock;
use settings::policy;
use wire::done::Done;
use wire::returns;

// Get Event Records, over the log that the payload names.
pub(crate) fn tell_log(log: &Log, payload: &[u8], reply: &mut [u8]) -> Done
    requires { ValidLog log.now × (length payload.now ≡ 1) × (2048 ≤ length reply.old) }
    ensures { LogTold log.now payload.now result reply.old reply.new }
{
    let code = get::get_code(payload[0]);
    if code != returns::SUCCESS {
        return Done { code, length: 0 };
    }
    let length = log.get(15, reply);
    Done { code, length }
}

// The others that see no list, to the mailbox that asks; no other opcode is one.
pub(crate) fn tell(
    mailbox: Mailbox,
    volatile: u16,
    persistent: u16,
    clock: Clock,
    policy: &[u8; 5],
    opcode: u16,
    payload: &[u8],
    time: u64,
    reply: &mut [u8],
) -> Done
    requires { (checked mailbox opcode (length payload.now) (length reply.old) ≡ 0) × (opcode ≡ 0x0100 → ⊥) × (opcode ≡ 0x4300 → ⊥) }
    ensures { Told mailbox volatile persistent clock policy.now opcode payload.now time result reply.old reply.new }
{
    match opcode {
        0x0102 => policy::get(policy, reply),
        0x0300 => clock.get_timestamp(time, reply),
        0x0400 => effects_log::get_supported_logs(mailbox, reply),
        0x0401 => effects_log::get_log(mailbox, payload, reply),
        0x4000 => identity::identify(volatile, persistent, reply),
        _ => Done {
            code: returns::UNSUPPORTED,
            length: 0,
        },
    }
}
