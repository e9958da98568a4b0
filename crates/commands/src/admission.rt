// The checks before a command's own (document 01, "Return numbers", "Order for a command"; document 02, W-206, and W-207: which commands are refused while media is disabled), and which of two checks decides.
ghost use Rattle.std.specs.Prelude.{◌≡◌, eqb};
ghost use Rattle.wire.specs.Returns.{unsupported_mailbox, invalid_length, small_buffer, need};
ghost use Rattle.labels.specs.Labels.{label_size};
ghost use Rattle.commands.specs.Commands.{is_first, checked, while_disabled, blocked};

use crate::mailboxes::Mailbox;
use wire::returns;

// The first of two return numbers that refuses, 0 where none does: what is checked first decides.
pub fn first_refusal(first: u16, second: u16) -> u16
    ensures { result ≡ need (eqb first 0) first second }
{
    if first != returns::SUCCESS {
        first
    } else {
        second
    }
}

// The check of the label area, by its size: 0 where there is nothing to refuse.
pub fn check_area(size: usize) -> u16
    ensures { result ≡ need (eqb size label_size) small_buffer 0 }
{
    if size == 4096 {
        returns::SUCCESS
    } else {
        returns::SMALL_BUFFER
    }
}

// The number that a mailbox gives before a command's own checks, 0 where there is none. The first mailbox checks the label area before (`check_area`); the pool manager's is lent none.
#[tactic(auto, unfolding(crate::specs::Commands::checked, crate::specs::Commands::commands, crate::specs::Commands::rows_of))]
pub fn admitted(mailbox: Mailbox, opcode: u16, length: usize, room: usize) -> u16
    ensures { result ≡ checked mailbox opcode length room }
{
    if room < 2048 {
        return returns::SMALL_BUFFER;
    }
    if 2048 < length {
        return returns::INVALID_LENGTH;
    }
    match opcode {
        0x0100 => length_code(length == 1),
        0x0101 => first_only(mailbox, length_code(6 <= length)),
        0x0102 => length_code(length == 0),
        0x0103 => first_only(mailbox, length_code(matches!(length, 4 | 5))),
        0x0300 => length_code(length == 0),
        0x0301 => first_only(mailbox, length_code(length == 8)),
        0x0400 => length_code(length == 0),
        0x0401 => length_code(length == 24),
        0x4000 => length_code(length == 0),
        0x4102 => first_only(mailbox, length_code(length == 8)),
        0x4103 => first_only(mailbox, length_code(8 <= length)),
        0x4300 => length_code(length == 16),
        0x4301 => first_only(mailbox, length_code(length == 8)),
        0x4302 => first_only(mailbox, length_code(length == 72)),
        0x4400 => first_only(mailbox, length_code(length == 0)),
        _ => returns::UNSUPPORTED,
    }
}

// A command that the first mailbox alone has: the number of its payload's length there, and 0015h in the pool manager's, whatever the length.
fn first_only(mailbox: Mailbox, code: u16) -> u16
    ensures { result ≡ need (is_first mailbox) unsupported_mailbox code }
{
    match mailbox {
        Mailbox::First => code,
        Mailbox::Pool => returns::UNSUPPORTED_MAILBOX,
    }
}

// The number of the check of a payload's length, by whether the command takes one of that length.
fn length_code(taken: bool) -> u16
    ensures { result ≡ need taken invalid_length 0 }
{
    if taken {
        returns::SUCCESS
    } else {
        returns::INVALID_LENGTH
    }
}

// The number that a command gets while media is disabled, 0 where it works as ever.
#[tactic(auto, unfolding(crate::specs::Commands::while_disabled))]
fn while_disabled(opcode: u16) -> u16
    ensures { result ≡ while_disabled opcode }
{
    match opcode {
        0x4400 => returns::BUSY,
        0x4301 | 0x4302 | 0x4102 | 0x4103 => returns::MEDIA_DISABLED,
        _ => returns::SUCCESS,
    }
}

// The number that a command gets where media is disabled or not: the check after that of its payload's length.
pub fn blocked(disabled: bool, opcode: u16) -> u16
    ensures { result ≡ blocked disabled opcode }
{
    if disabled {
        while_disabled(opcode)
    } else {
        returns::SUCCESS
    }
}
