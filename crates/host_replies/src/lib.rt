// The replies of the host's library (document 02, W-202), for tools in a guest: each read from bytes (`reply`) and written again (`writing`); those that hold a count and as
// many records share one rule (`counted`) and the reasons of a refusal (`refusal`). A refusal gives its number and leaves the lent room as it was.
#![tactic(auto)]

pub mod counted;
pub mod refusal;
pub mod reply;
pub mod writing;
