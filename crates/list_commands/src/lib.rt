// The poison commands over a list (document 01, "Poison list"): Get Poison List, Inject Poison and Clear Poison, and the checks of an address and of a range. Nothing here knows a device: crate
// `mailbox` above lends its list. A function that replies assumes a payload of the length that its command takes and room for its longest reply, which `admission` of `commands` checks.
#![tactic(auto)]

pub mod poison_commands;
