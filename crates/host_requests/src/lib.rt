// The requests of the host's library (document 02, W-202), for tools in a guest: each of the twelve built into a lent room (`request`). A refusal
// leaves the lent room as it was. The walk of the poison list, which asks by such a request, is crate `host`.
#![tactic(auto)]

pub mod request;
