// The table of commands, of both mailboxes (document 02, W-208), with the checks before a command's own (document 01, "Return numbers"), the Command Effects Log that it gives, and Identify (document 01, "Logs and identity"). The commands over
// clock, policy and media are in `settings`, below; the poison commands in `list_commands`, above. Nothing here knows a device: crate `mailbox` above takes the parts out of one, and puts them back.
// A function that replies assumes a payload of the length that its command takes and room for its longest reply, which `admission` checks.
#![tactic(auto)]

pub mod admission;
pub mod effects_log;
pub mod identity;
pub mod mailboxes;
