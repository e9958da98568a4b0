// The Command Effects Log, Get Supported Logs and Get Log (document 01, "Logs and identity").
ghost use Rattle.std.specs.Prelude.{◌≡◌, ◌≤◌, length};
ghost use Rattle.commands.specs.EffectsLog.{effects_size, get_supported_logs, part_of_log, get_log};
ghost use Rattle.settings.specs.Relations.{Replied};

use crate::mailboxes::Mailbox;
use wire::done::Done;
use wire::returns;

// Opcode and effect of each command, two bytes each: of the first mailbox, and of the pool manager's (document 02, W-208). That they are what the table of commands gives is shown (`effects_are`).
const EFFECTS: [u8; 60] = [
    0x00, 0x01, 0x00, 0x00, 0x01, 0x01, 0x10, 0x00, 0x02, 0x01, 0x00, 0x00, 0x03, 0x01, 0x02, 0x00,
    0x00, 0x03, 0x00, 0x00, 0x01, 0x03, 0x08, 0x00, 0x00, 0x04, 0x00, 0x00, 0x01, 0x04, 0x00, 0x00,
    0x00, 0x40, 0x00, 0x00, 0x02, 0x41, 0x00, 0x00, 0x03, 0x41, 0x06, 0x00, 0x00, 0x43, 0x00, 0x00,
    0x01, 0x43, 0x00, 0x00, 0x02, 0x43, 0x00, 0x00, 0x00, 0x44, 0x64, 0x00,
];

const POOL_EFFECTS: [u8; 28] = [
    0x00, 0x01, 0x00, 0x00, 0x02, 0x01, 0x00, 0x00, 0x00, 0x03, 0x00, 0x00, 0x00, 0x04, 0x00, 0x00,
    0x01, 0x04, 0x00, 0x00, 0x00, 0x40, 0x00, 0x00, 0x00, 0x43, 0x00, 0x00,
];

// 0da9c0b5-bf41-4b78-8f79-96b1623b3f17
const IDENTIFIER: [u8; 16] = [
    0x0d, 0xa9, 0xc0, 0xb5, 0xbf, 0x41, 0x4b, 0x78, 0x8f, 0x79, 0x96, 0xb1, 0x62, 0x3b, 0x3f, 0x17,
];

// The size of the effects log of the mailbox that asks.
#[tactic(auto, using(crate::proofs::EffectsLaws::effects_sizes))]
fn effects_size(mailbox: Mailbox) -> u64
    ensures { result ≡ effects_size mailbox }
{
    match mailbox {
        Mailbox::First => 60,
        Mailbox::Pool => 28,
    }
}

// Get Supported Logs.
pub fn get_supported_logs(mailbox: Mailbox, reply: &mut [u8]) -> Done
    requires { 28 ≤ length reply.old }
    ensures { Replied (get_supported_logs mailbox) result reply.old reply.new }
{
    wire::put(reply, 0, 2, 1);
    wire::put(reply, 2, 6, 0);
    wire::copy(&IDENTIFIER, 0, 16, reply, 8);
    let size = effects_size(mailbox);
    wire::put(reply, 24, 4, size);
    Done {
        code: returns::SUCCESS,
        length: 28,
    }
}

// Get Log, of the effects log of the mailbox that asks.
#[tactic(auto, using(crate::proofs::EffectsLaws::effects_are, crate::proofs::EffectsLaws::pool_effects_are))]
pub fn get_log(mailbox: Mailbox, payload: &[u8], reply: &mut [u8]) -> Done
    requires { (2048 ≤ length reply.old) × (length payload.now ≡ 24) }
    ensures { Replied (get_log mailbox payload.now) result reply.old reply.new }
{
    match mailbox {
        Mailbox::First => part_of_log(&EFFECTS, payload, reply),
        Mailbox::Pool => part_of_log(&POOL_EFFECTS, payload, reply),
    }
}

// The same of a log of any bytes. The offset and the length have 4 bytes each, so that their sum is one of whole numbers in 64 bits.
#[tactic(auto, using(wire::proofs::Laws::length_part, std::proofs::lemmas::Grind::common_steps), unfolding(crate::specs::EffectsLog::part_of_log, crate::specs::EffectsLog::effects_log_id, wire::specs::Wire::splice))]
fn part_of_log(log: &[u8], payload: &[u8], reply: &mut [u8]) -> Done
    requires { (2048 ≤ length reply.old) × (length payload.now ≡ 24) }
    ensures { Replied (part_of_log log.now payload.now) result reply.old reply.new }
{
    if !wire::matches(payload, 0, &IDENTIFIER) {
        return Done {
            code: returns::INVALID_LOG,
            length: 0,
        };
    }
    let offset = wire::get(payload, 16, 4);
    let size = wire::get(payload, 20, 4);
    if 2048 < size || (log.len() as u64) < offset + size {
        return Done {
            code: returns::INVALID_INPUT,
            length: 0,
        };
    }
    let from = offset as usize;
    let n = size as usize;
    wire::copy(log, from, n, reply, 0);
    Done {
        code: returns::SUCCESS,
        length: n,
    }
}
