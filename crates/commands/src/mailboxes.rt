// The two mailboxes of a device (document 02, W-208): the first, which has every command, and the pool manager's, which may look at the same logs and list. The column of the table of commands
// says which commands the second has.
#[derive(Clone, Copy, Debug, PartialEq, Eq, Hash)]
pub enum Mailbox {
    First,
    Pool,
}
