// The poison list (document 01, "Poison list"): at most 256 entries in ascending address order, each a start line, a length in lines
// and a type, with the overflow flag and the overflow time. Layer 1: it speaks of lines; the checks of addresses and the return numbers are its caller's.
// The changes and answers that a device asks for are methods of a list, where it lies: none makes a second list (document 02, W-203). They assume a list made here and changed
// by these calls (`ValidList`) and lines of the device, and leave such a list. What its own crate alone calls is not public: the search and the moves within the arrays.
#![tactic(auto)]

pub mod clear;
pub mod inject;
pub mod line_test;
pub mod list;
pub mod range;
pub mod report;
mod search;
mod shift;
