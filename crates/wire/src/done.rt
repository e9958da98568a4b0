// What a call that writes to a lent room gives by number: a command of the mailbox that replies, and the walk of the host's library.

// The return number, and how many bytes of the room were written: none where the number is not 0.
#[derive(Clone, Copy, Debug, PartialEq, Eq)]
pub struct Done {
    pub code: u16,
    pub length: usize,
}
