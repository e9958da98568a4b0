// The records of `probe` that read replies by the host's library (document 10, W-202): RP, a reply read, and RW, a reply read and written again; each record's call and line. The buffer that a call
// writes is in `host_records`, below.
#![tactic(auto)]

pub mod replies;
pub mod rewrites;
