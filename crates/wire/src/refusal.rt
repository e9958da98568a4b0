// Why a call refuses (document 01, "Return numbers"), each named once for every layer, and its number. Success and Started, which are no refusals, are what a call that does not refuse gives.
ghost use Rattle.std.specs.Prelude.{◌≡◌};
ghost use Rattle.wire.specs.Refusal.{refusal_number, code_of};
ghost use Rattle.wire.specs.declared.refusal.Refusal.{Refusal};

use std::error::Error;
use std::fmt;

#[derive(Clone, Copy, Debug, PartialEq, Eq, Hash)]
pub enum Refusal {
    InvalidInput,
    Unsupported,
    // A Sanitize while one runs (document 02, W-207).
    Busy,
    // A command that media which is disabled does not allow (document 02, W-207).
    MediaDisabled,
    InvalidHandle,
    InvalidAddress,
    InjectLimit,
    // An opcode that the device has and the mailbox that asks has not (document 02, W-208).
    UnsupportedMailbox,
    InvalidLength,
    InvalidLog,
    // House: reply buffer under 2,048 bytes; label area not 4,096 (document 02, W-206).
    SmallBuffer,
}

// The paper's number.
impl From<Refusal> for u16 {
    ghost from_gives = { λ refusal number. number ≡ refusal_number refusal };

    fn from(refusal: Refusal) -> u16 {
        match refusal {
            Refusal::InvalidInput => 0x2,
            Refusal::Unsupported => 0x3,
            Refusal::Busy => 0x6,
            Refusal::MediaDisabled => 0x7,
            Refusal::InvalidHandle => 0xe,
            Refusal::InvalidAddress => 0xf,
            Refusal::InjectLimit => 0x10,
            Refusal::UnsupportedMailbox => 0x15,
            Refusal::InvalidLength => 0x16,
            Refusal::InvalidLog => 0x17,
            Refusal::SmallBuffer => 0x100,
        }
    }
}

impl fmt::Display for Refusal {
    fn fmt<W: fmt::Write>(&self, f: &mut fmt::Formatter<W>) -> fmt::Result {
        f.write_str(match self {
            Refusal::InvalidInput => "invalid input",
            Refusal::Unsupported => "unsupported",
            Refusal::Busy => "busy",
            Refusal::MediaDisabled => "media disabled",
            Refusal::InvalidHandle => "invalid handle",
            Refusal::InvalidAddress => "invalid physical address",
            Refusal::InjectLimit => "inject poison limit reached",
            Refusal::UnsupportedMailbox => "unsupported mailbox",
            Refusal::InvalidLength => "invalid payload length",
            Refusal::InvalidLog => "invalid log",
            Refusal::SmallBuffer => "buffer too small",
        })
    }
}

impl Error for Refusal {}

// The return number of a result: 0000h, or that of its refusal.
pub fn code_of<T>(answer: &Result<T, Refusal>) -> u16
    ensures { result ≡ code_of answer.now }
{
    match answer {
        Ok(_) => 0,
        Err(refusal) => u16::from(*refusal),
    }
}
