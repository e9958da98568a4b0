// Identify (document 01, "Logs and identity").
ghost use Rattle.std.specs.Prelude.{◌≡◌, ◌+◌, ◌≤◌, length};
ghost use Rattle.commands.specs.Identity.{identify};
ghost use Rattle.settings.specs.Relations.{Replied};

use wire::done::Done;
use wire::returns;

// Identify's bytes from the alignment on.
const LIMITS: [u8; 29] = [
    0, 0, 0, 0, 0, 0, 0, 0, 8, 0, 8, 0, 8, 0, 8, 0, 0, 16, 0, 0, 0, 1, 0, 0, 0, 0, 0, 8, 0,
];

// Identify, of a device of so many units.
pub fn identify(volatile: u16, persistent: u16, reply: &mut [u8]) -> Done
    requires { 69 ≤ length reply.old }
    ensures { Replied (identify volatile persistent) result reply.old reply.new }
{
    let v = u64::from(volatile);
    let p = u64::from(persistent);
    wire::copy(b"BWFW VERSION 0\0\0", 0, 16, reply, 0);
    wire::put(reply, 16, 8, v + p);
    wire::put(reply, 24, 8, v);
    wire::put(reply, 32, 8, p);
    wire::copy(&LIMITS, 0, 29, reply, 40);
    Done {
        code: returns::SUCCESS,
        length: 69,
    }
}
