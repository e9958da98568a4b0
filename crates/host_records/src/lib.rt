// The records of `probe` that send requests by the host's library (document 10, W-202): RQ and WK, each record's call and line; and the buffer that a call writes, with the
// line that tells what came back in it, which the program's other records use too. RP and RW are in `reply_records`, above. The program itself, its other records and its loop are `probe`.
#![tactic(auto)]

pub mod buffer;
pub mod requests;
pub mod walks;
