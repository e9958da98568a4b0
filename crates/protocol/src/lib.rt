// What the programs `bench` and `probe` have in common (document 01, "Bench program"; document 10, "Rules"): the buffers between them and the system's calls,
// the records of both found there, the text put there, and the calls of the records that both have alike. Each program adds its other calls and its lines.
#![tactic(auto)]

pub mod calls;
pub mod formats;
mod host_formats;
mod label_formats;
pub mod output;
pub mod records;
pub mod stream;
