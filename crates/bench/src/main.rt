// The bench program (document 01, "Bench program"): reads records from standard input, gives each to the device, and prints a line for each.
// One record is in memory at a time; the input may have any length. That it is safe and ends is proved, and so is every record's call and line (`Runs`); what
// the system's calls read and write is tested.
#![tactic(auto)]

mod lines;
mod serve;

use protocol::stream;
use protocol::stream::System;

fn main(rt: HostRuntime) {
    let system = System {
        input: rt.stdin(),
        output: rt.stdout(),
    };
    let mut input = [0u8; 65536];
    let mut out = [0u8; 65536];
    let mut area = [0u8; 4096];
    let mut reply = [0u8; 2048];
    let used = serve::run(system, &mut input, &mut out, &mut area, &mut reply);
    stream::flush(system.output, &out, used);
}
