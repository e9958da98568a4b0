// The device: what it holds, how it is made, and its mailbox.
ghost use Rattle.std.specs.Prelude.{◌≡◌, true, ◌+◌, ◌≤◌, length};
ghost use Rattle.commands.specs.Numbers.{most_units};
ghost use Rattle.mailbox.specs.State.{ValidDevice, state_of};
ghost use Rattle.mailbox.specs.Mailbox.{answer, outcome, area_after};
ghost use Rattle.settings.specs.Media.{due};
ghost use Rattle.mailbox.specs.Ending.{Ends, WorkEnded, AfterEnding};
ghost use Rattle.mailbox.specs.DeviceCalls.{make, new_device};
ghost use Rattle.mailbox.specs.declared.device.Device.{Device};
ghost use Rattle.mailbox.specs.Relations.{Answered, Makes};
ghost use Rattle.mailbox.specs.InPlace.{answered};

use crate::by_parts;
use events::log::Log;
use events::{empty, log};
use poison::list::PoisonList;
use settings::clock::Clock;
use settings::media::MediaState;
use settings::vector;
use wire::done::Done;
use wire::returns;

// The fields are public, and laid out as C does, for crate `embed` alone: it has a device behind a C program's pointer, and lends or copies out the parts that `by_parts` asks for
// without the others. No other crate may name them (`tests/layers`): to it a device is what the calls below answer.
#[repr(C)]
#[derive(Clone, Copy, Debug, PartialEq, Eq)]
pub struct Device {
    pub volatile: u16,
    pub persistent: u16,
    pub clock: Clock,
    pub policy: [u8; 5],
    pub logs: [Log; 5],
    pub poison: PoisonList,
    pub media: MediaState,
}

// The answer to a command: the return number, the length of the reply, the device that follows, and the vector to raise (document 02, W-204). The vector stands last:
// before the device it costs a copy of some 7.6 KB with every command, as compiled.
#[derive(Clone, Copy, Debug, PartialEq, Eq)]
pub struct Answer {
    pub code: u16,
    pub length: usize,
    pub device: Device,
    pub vector: Option<u8>,
}

// What a command answers beside the device, which is changed where it lies: the return number, the length of the reply, and the number of the vector to raise, 0 for none.
#[derive(Clone, Copy, Debug, PartialEq, Eq)]
pub struct CommandTold {
    pub code: u16,
    pub length: usize,
    pub vector: u8,
}

// The answer of make.
#[derive(Clone, Copy, Debug, PartialEq, Eq)]
pub struct Made {
    pub code: u16,
    pub device: Device,
}

impl Device {
    // A new device of so many units: the clock not set, every interrupt disabled, five empty logs, an empty poison list and media enabled.
    fn new(volatile: u16, persistent: u16) -> Device
        requires { (1 ≤ volatile + persistent) × (volatile + persistent ≤ most_units) }
        ensures { (state_of result ≡ new_device volatile persistent) × ValidDevice result }
    {
        let clock = Clock::unset();
        let media = MediaState::enabled();
        let logs = log::new_logs();
        let poison = PoisonList::new();
        Device {
            volatile,
            persistent,
            clock,
            policy: [0u8; 5],
            logs,
            poison,
            media,
        }
    }

    // A new device of so many units; a total outside 1 to 1,023 is refused, with the new device of one volatile unit beside the number.
    pub fn make(volatile: u16, persistent: u16) -> Made
        ensures { Makes (make volatile persistent) result }
    {
        if (1..=1023).contains(&(u32::from(volatile) + u32::from(persistent))) {
            Made {
                code: returns::SUCCESS,
                device: Device::new(volatile, persistent),
            }
        } else {
            Made {
                code: returns::INVALID_INPUT,
                device: Device::new(1, 0),
            }
        }
    }

    // Makes it the device that a call at the caller's time finds: a due Sanitize is ended, so that the logs are empty, each emptied where it lies, and media is enabled (document 02, W-207).
    pub(crate) fn end_due(&mut self, time: u64)
        requires { ValidDevice self.old }
        ensures found { Ends self.old time self.new }
        ensures ended { due self.old.media time ≡ true → WorkEnded self.old self.new }
    {
        if self.media.due(time) {
            empty::empty_logs(&mut self.logs);
            self.media = MediaState::enabled();
        }
    }

    // The device's answer to a command, with the caller's time; the reply is written to the lent buffer, and the label area that the caller lends is written by Set LSA alone. The
    // answer is made once, of the device that follows: each further device handed over would be a copy of some 7.6 KB.
    pub fn command(
        mut self,
        opcode: u16,
        payload: &[u8],
        time: u64,
        area: &mut [u8],
        reply: &mut [u8],
    ) -> Answer
        requires { ValidDevice self }
        ensures { AfterEnding self time (λ (e : Device). Answered (outcome (state_of self) opcode payload.now time area.old (length reply.old)) e result reply.old reply.new) × (area.new ≡ area_after opcode payload.now result.code area.old) }
    {
        let told = self.run(opcode, payload, time, area, reply);
        Answer {
            code: told.code,
            length: told.length,
            device: self,
            vector: vector::numbered(told.vector),
        }
    }

    // The same for a device where it lies.
    pub fn run(
        &mut self,
        opcode: u16,
        payload: &[u8],
        time: u64,
        area: &mut [u8],
        reply: &mut [u8],
    ) -> CommandTold
        requires { ValidDevice self.old }
        ensures { AfterEnding self.old time (λ (e : Device). Answered (outcome (state_of self.old) opcode payload.now time area.old (length reply.old)) e (answered result self.new) reply.old reply.new) × (area.new ≡ area_after opcode payload.now result.code area.old) }
    {
        self.end_due(time);
        self.answer(opcode, payload, time, area, reply)
    }

    // What is answered where no Sanitize is left to end. The part that the command sees is changed where it lies.
    fn answer(
        &mut self,
        opcode: u16,
        payload: &[u8],
        time: u64,
        area: &mut [u8],
        reply: &mut [u8],
    ) -> CommandTold
        requires { ValidDevice self.old }
        ensures { Answered (answer (state_of self.old) opcode payload.now time area.old (length reply.old)) self.old (answered result self.new) reply.old reply.new × (area.new ≡ area_after opcode payload.now result.code area.old) }
    {
        let disabled = self.media.disabled;
        let mut vector = 0;
        let done = if by_parts::of_area(opcode, area.len()) {
            by_parts::area_command(disabled, opcode, payload, area, reply)
        } else if by_parts::of_list(opcode) {
            by_parts::list_command(
                &mut self.poison,
                self.clock,
                self.volatile,
                self.persistent,
                disabled,
                opcode,
                payload,
                time,
                reply,
            )
        } else if by_parts::of_injection(opcode) {
            let told = by_parts::inject_command(
                &mut self.poison,
                &mut self.logs[0],
                self.clock,
                self.policy,
                self.volatile,
                self.persistent,
                disabled,
                payload,
                time,
                reply,
            );
            vector = told.vector;
            Done {
                code: told.code,
                length: 0,
            }
        } else if by_parts::of_log(opcode) {
            let k = by_parts::log_named(payload);
            by_parts::log_command(&mut self.logs[k], opcode, payload, reply)
        } else {
            by_parts::settings_command(
                self.volatile,
                self.persistent,
                &mut self.clock,
                &mut self.policy,
                &mut self.media,
                opcode,
                payload,
                time,
                reply,
            )
        };
        CommandTold {
            code: done.code,
            length: done.length,
            vector,
        }
    }
}
