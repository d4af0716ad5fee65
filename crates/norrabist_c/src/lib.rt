// What C and Rust link: every reader and writer. `rust/norrabist.h` declares them. A reader hands
// its answer back by value, in registers: the lengths and numbers that make the value (RULES 1.7),
// and the table's number, 0 where the bytes are accepted; in a refusal all else is 0.
// stays: structs of numbers and flags, and the numbers of readers and kinds, are the C interface.
// stays: a `From<Refusal>` for each struct would be as long as the arm that it is for.
#![tactic(auto)]

pub mod bodies;
pub mod contents;
pub mod extensions;
pub mod hellos;
pub mod lists;
pub mod messages;
pub mod parts;
pub mod records;
pub mod refusals;
pub mod writers;
