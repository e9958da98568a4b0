// The second mailbox, the pool manager's (document 02, W-208): it may look at the same logs and list, is lent no label area, changes nothing and ends no Sanitize. Its commands go through the functions that
// tell what a part holds, as the first mailbox's do.
ghost use Rattle.std.specs.Prelude.{◌≡◌, ◌+◌, ◌*◌, ◌≤◌, length};
ghost use Rattle.poison.specs.State.{ValidList};
ghost use Rattle.events.specs.Log.{ValidLog};
ghost use Rattle.settings.specs.Relations.{Replied};
ghost use Rattle.commands.specs.Numbers.{unit_lines, most_units};
ghost use Rattle.mailbox.specs.State.{ValidDevice, state_of};
ghost use Rattle.mailbox.specs.Pool.{pool_answer};
ghost use Rattle.mailbox.specs.ByParts.{PoolIn};

use crate::device::Device;
use crate::{by_parts, telling};
use commands::admission;
use commands::mailboxes::Mailbox;
use events::log::Log;
use list_commands::poison_commands;
use poison::list::PoisonList;
use settings::clock::Clock;
use wire::done::Done;
use wire::returns;

// A command of the pool manager's mailbox over the parts of a device that its commands see: the list and the log that the payload names (`log_named`), which it reads where they lie, the
// clock and the policy. The answer is the whole answer: nothing of the device changes.
pub fn pool_command_in(
    list: &PoisonList,
    log: &Log,
    clock: Clock,
    policy: [u8; 5],
    volatile: u16,
    persistent: u16,
    opcode: u16,
    payload: &[u8],
    time: u64,
    reply: &mut [u8],
) -> Done
    requires { (volatile + persistent ≤ most_units) × ValidList (unit_lines * (volatile + persistent)) list.now × ValidLog log.now }
    ensures { PoolIn volatile persistent clock policy log.now list.now opcode payload.now time result reply.old reply.new }
{
    let code = admission::admitted(Mailbox::Pool, opcode, payload.len(), reply.len());
    if code != returns::SUCCESS {
        return Done { code, length: 0 };
    }
    if opcode == 0x0100 {
        return telling::tell_log(log, payload, reply);
    }
    if opcode == 0x4300 {
        let lines = by_parts::lines_of(volatile, persistent);
        return poison_commands::get(list, lines, payload, reply);
    }
    telling::tell(
        Mailbox::Pool,
        volatile,
        persistent,
        clock,
        &policy,
        opcode,
        payload,
        time,
        reply,
    )
}

impl Device {
    // The device's answer to a command of the pool manager's mailbox, with the caller's time; the reply is written to the lent buffer. No device follows: it stays as it is.
    pub fn pool_command(self, opcode: u16, payload: &[u8], time: u64, reply: &mut [u8]) -> Done
        requires { ValidDevice self }
        ensures { Replied (pool_answer (state_of self) opcode payload.now time (length reply.old)) result reply.old reply.new }
    {
        let k = by_parts::log_named(payload);
        // Copied out, as for the line test (`device_calls`); and of a device by value a log is not lent.
        let list = self.poison;
        let log = self.logs[k];
        pool_command_in(
            &list,
            &log,
            self.clock,
            self.policy,
            self.volatile,
            self.persistent,
            opcode,
            payload,
            time,
            reply,
        )
    }
}
