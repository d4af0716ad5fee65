// What C and Rust link, as a static library: each export calls the function of the same name in
// `norrabist_c`, and promises the same. `rust/norrabist.h` declares them. Made by ./papers --write.
// stays: every export is a function of its own; numbers and flags are the C interface.
#![tactic(auto)]

pub mod bodies;
pub mod contents;
pub mod extensions;
pub mod hellos;
pub mod lists;
pub mod messages;
pub mod records;
pub mod refusals;
pub mod writers;
