// The device: the commands of its mailbox, and of the second one (document 02, W-208), and its device-side calls (document 01, "What the device does"). Layer 3, built on the stated behaviour of the
// poison list and of the event logs: their contracts alone are cited, and no array of theirs is read here.
// Public functions of a device assume one made here and changed by these calls (`ValidDevice`) and nothing else, and give such a device back. Those of `by_parts`
// and `pool_command_in` assume as much of the parts of a device that they are handed.
#![tactic(auto)]

pub mod by_parts;
pub mod device;
pub mod device_calls;
pub mod line_status;
pub mod pool;
mod telling;
