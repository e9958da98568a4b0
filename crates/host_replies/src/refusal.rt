// Why a reply with a count is refused, read or written (document 02, W-202): its number, and the place of the first byte that has a reserved bit set.
ghost use Rattle.std.specs.Prelude.{◌≡◌};
ghost use Rattle.host_replies.specs.Refusal.{refusal_of, reply_code, place_of};

use std::error::Error;
use std::fmt;
use wire::refusal::Refusal;

#[derive(Clone, Copy, Debug, PartialEq, Eq, Hash)]
pub enum ReplyRefusal {
    // The bytes, or the records to be written, are not as many as the count says.
    InvalidLength,
    // The byte at this place of the reply is the first that has a reserved bit set.
    ReservedBit { place: usize },
    // The reply needs more than the room.
    SmallBuffer,
}

// The same without the place.
impl From<ReplyRefusal> for Refusal {
    ghost from_gives = { λ reply_refusal refusal. refusal ≡ refusal_of reply_refusal };

    fn from(refusal: ReplyRefusal) -> Refusal {
        match refusal {
            ReplyRefusal::InvalidLength => Refusal::InvalidLength,
            ReplyRefusal::ReservedBit { .. } => Refusal::InvalidInput,
            ReplyRefusal::SmallBuffer => Refusal::SmallBuffer,
        }
    }
}

// The return number.
impl From<ReplyRefusal> for u16 {
    ghost from_gives = { λ reply_refusal number. number ≡ reply_code reply_refusal };

    fn from(refusal: ReplyRefusal) -> u16 {
        u16::from(Refusal::from(refusal))
    }
}

impl ReplyRefusal {
    // The place; 0 where no byte is at fault.
    pub fn place(self) -> usize
        ensures { result ≡ place_of self }
    {
        match self {
            ReplyRefusal::ReservedBit { place } => place,
            ReplyRefusal::InvalidLength | ReplyRefusal::SmallBuffer => 0,
        }
    }
}

impl fmt::Display for ReplyRefusal {
    fn fmt<W: fmt::Write>(&self, f: &mut fmt::Formatter<W>) -> fmt::Result {
        match self {
            ReplyRefusal::InvalidLength => write!(f, "not as long as its count says"),
            ReplyRefusal::ReservedBit { place } => write!(
                f,
                "a reserved bit is set in byte {place}"
            ),
            ReplyRefusal::SmallBuffer => write!(f, "buffer too small"),
        }
    }
}

impl Error for ReplyRefusal {}
