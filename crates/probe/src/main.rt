// The probe program (document 10): reads records from standard input, makes each record's call with a buffer of the size that it asks for, and prints the whole
// answer. One record is in memory at a time; the input may have any length. That it is safe and ends is proved, and so is every record's call and line; what the
// system's calls read and write is tested.
#![tactic(auto)]

mod label_records;
mod pool_records;
mod serve;

use protocol::stream;
use protocol::stream::System;

fn main(rt: HostRuntime) {
    let system = System {
        input: rt.stdin(),
        output: rt.stdout(),
    };
    let mut input = [0u8; 65536];
    let mut out = [0u8; 65536];
    let mut store = [0u8; 8192];
    let mut reply = [0u8; 65536];
    let used = serve::run(system, &mut input, &mut out, &mut store, &mut reply);
    stream::flush(system.output, &out, used);
}
