// Little-endian numbers in byte slices, the copy of a part of one slice into another, and the comparison of a part
// with a slice: one function over the width each. Every function fixes every byte of a buffer that it is lent. Also the return
// numbers, the refusals, and what a call that writes to a lent room gives (`done`).
#![tactic(auto)]

pub mod done;
pub mod refusal;
pub mod returns;

ghost use Rattle.std.specs.Prelude.{◌≡◌, ◌+◌, ◌≤◌, length};
ghost use Rattle.wire.specs.Wire.{le, Read, part, splice, same};

// Writes the n lowest bytes of value into d from index at, the lowest first.
#[tactic(auto, using(crate::proofs::Laws::written_turn, crate::proofs::Laws::written_whole, crate::proofs::Laws::part_stored, crate::proofs::Laws::length_le, std::proofs::lemmas::Grind::common_steps))]
pub fn put(d: &mut [u8], at: usize, n: usize, value: u64)
    requires { at + n ≤ length d.old }
    ensures { d.new ≡ splice at (le n value) d.old }
{
    let mut rest = value;
    for byte in d[at..at + n].iter_mut() {
        *byte = (rest % 256) as u8;
        rest /= 256;
    }
}

// The number in the n bytes of s from index at.
pub fn get(s: &[u8], at: usize, n: usize) -> u64
    requires { (at + n ≤ length s.now) × (n ≤ 8) }
    ensures { Read s.now at n result }
{
    let mut bytes = [0; 8];
    bytes[..n].copy_from_slice(&s[at..at + n]);
    u64::from_le_bytes(bytes)
}

// Copies the n bytes of s from index from into d from index at. Not by the library's `copy_from_slice`: at a length that is not
// known it is compiled to a call of `memmove`, and the library for C wants `memcpy` and `memset` alone.
#[tactic(auto, using(crate::proofs::Laws::part_lent, crate::proofs::Laws::part_stored, crate::proofs::Laws::length_part, std::proofs::lemmas::Grind::common_steps))]
pub fn copy(s: &[u8], from: usize, n: usize, d: &mut [u8], at: usize)
    requires { (from + n ≤ length s.now) × (at + n ≤ length d.old) }
    ensures { d.new ≡ splice at (part from n s.now) d.old }
{
    for (i, byte) in d[at..at + n].iter_mut().enumerate() {
        *byte = s[from + i];
    }
}

// Whether the bytes of s from index at on, as many as t has, are those of t. Pair by pair, so that a must-fail edit can turn the test of a pair alone.
pub fn matches(s: &[u8], at: usize, t: &[u8]) -> bool
    requires { at + length t.now ≤ length s.now }
    ensures { result ≡ same (part at (length t.now) s.now) t.now }
{
    s[at..at + t.len()].iter().zip(t).all(|(a, b)| *a == *b)
}
