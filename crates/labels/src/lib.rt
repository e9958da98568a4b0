// The label area (document 02, W-206): Get LSA and Set LSA over the 4,096 bytes that the caller lends with each command. A leaf, as the poison list and the event logs are:
// it knows no opcode and no device. What is assumed: the lengths that the command layer checks before.
#![tactic(auto)]

ghost use Rattle.std.specs.Prelude.{◌≡◌, ◌+◌, ◌≤◌, ◌<◌, ◌^◌, leb, length};
ghost use Rattle.wire.specs.Done.{Writes};
ghost use Rattle.labels.specs.Labels.{label_size, get_labels, set_code, Sets};

use wire::done::Done;
use wire::returns;

// Whether so many bytes from an offset on end in the area. An offset has 4 bytes and n at most 4, so that their sum is one of whole numbers in 64 bits.
fn ends_inside(offset: u64, n: u64) -> bool
    requires { (offset < 256 ^ 4) × (n < 256 ^ 4) }
    ensures { result ≡ leb (offset + n) label_size }
{
    offset + n <= 4096
}

// Get LSA (offset 4, length 4), of at most `most` bytes: replies those bytes.
#[tactic(auto, using(wire::proofs::Laws::length_part), unfolding(crate::specs::Labels::get_labels, wire::specs::Wire::splice))]
pub fn get_labels(payload: &[u8], most: usize, area: &[u8], reply: &mut [u8]) -> Done
    requires { (length payload.now ≡ 8) × (length area.now ≡ label_size) × (most ≤ length reply.old) }
    ensures { Writes (get_labels most payload.now area.now) result reply.old reply.new }
{
    let offset = wire::get(payload, 0, 4);
    let size = wire::get(payload, 4, 4);
    if (most as u64) < size || !ends_inside(offset, size) {
        return Done {
            code: returns::INVALID_INPUT,
            length: 0,
        };
    }
    let from = offset as usize;
    let n = size as usize;
    wire::copy(area, from, n, reply, 0);
    Done {
        code: returns::SUCCESS,
        length: n,
    }
}

// The checks of a Set LSA past that of its length. The number of data bytes is tested by itself first: it has then at most 4 bytes.
#[tactic(auto, unfolding(crate::specs::Labels::set_code))]
fn check_set(payload: &[u8]) -> u16
    requires { 8 ≤ length payload.now }
    ensures { result ≡ set_code payload.now }
{
    let n = payload.len() - 8;
    let past = 4096 < n || !ends_inside(wire::get(payload, 0, 4), n as u64);
    if past || wire::get(payload, 4, 4) != 0 {
        returns::INVALID_INPUT
    } else {
        returns::SUCCESS
    }
}

// Set LSA (offset 4, four reserved, data): writes the data and no other byte of the area; where it refuses, none. Its number.
#[tactic(auto, using(crate::proofs::Cases::set_accepted), unfolding(crate::specs::Labels::set_labels, wire::specs::Wire::part))]
pub fn set_labels(payload: &[u8], area: &mut [u8]) -> u16
    requires { (8 ≤ length payload.now) × (length area.old ≡ label_size) }
    ensures { Sets payload.now result area.old area.new }
{
    let code = check_set(payload);
    if code != returns::SUCCESS {
        return code;
    }
    let from = wire::get(payload, 0, 4) as usize;
    wire::copy(payload, 8, payload.len() - 8, area, from);
    code
}
