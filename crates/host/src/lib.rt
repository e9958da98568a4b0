// The host's side of the mailbox (document 02, W-202), for tools in a guest: the whole poison list walked (`walk`), by the library's own requests. Requests are crate
// `host_requests`, replies crate `host_replies`. A refusal gives its number and leaves the lent room as it was.
#![tactic(auto)]

pub mod walk;
