// Bytes and lengths: a part of the bytes lent, big-endian numbers read and written, and bytes
// copied.
#![tactic(auto)]

pub mod number;
pub mod output;
pub mod view;
