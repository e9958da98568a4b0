// The parts of a device that a command sets, and the commands over each of them (document 01, "Clock", "Event logs", Policy; document 02, W-204, W-207): the clock, the interrupt policy and its
// vectors, and media, which a Sanitize disables. Nothing here knows a device.
// A function that replies assumes a payload of the length that its command takes and room for its longest reply, which `admission` of `commands` checks.
#![tactic(auto)]

pub mod clock;
pub mod media;
pub mod policy;
pub mod vector;
