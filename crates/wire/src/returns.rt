// The return numbers (document 01, "Return numbers"), each named once for every layer; `specs/Returns.antt` has them for the definitions.
pub const SUCCESS: u16 = 0;

// A Sanitize was started (document 02, W-207): no refusal.
pub const STARTED: u16 = 0x1;

pub const INVALID_INPUT: u16 = 0x2;

pub const UNSUPPORTED: u16 = 0x3;

// A Sanitize while one runs; a command that media which is disabled does not allow (document 02, W-207).
pub const BUSY: u16 = 0x6;

pub const MEDIA_DISABLED: u16 = 0x7;

pub const INVALID_HANDLE: u16 = 0xe;

pub const INVALID_ADDRESS: u16 = 0xf;

pub const INJECT_LIMIT: u16 = 0x10;

// An opcode that the device has and the mailbox that asks has not (document 02, W-208).
pub const UNSUPPORTED_MAILBOX: u16 = 0x15;

pub const INVALID_LENGTH: u16 = 0x16;

pub const INVALID_LOG: u16 = 0x17;

// House: reply buffer under 2,048 bytes; label area not 4,096 (document 02, W-206).
pub const SMALL_BUFFER: u16 = 0x100;
