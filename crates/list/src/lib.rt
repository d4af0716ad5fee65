// Lists: how many items there are, the item at a place, and the place to go on from. A list is lent
// as its own bytes, without its length.
#![tactic(auto)]

pub mod any;
pub mod items;
pub mod numbers;
pub mod steps;
pub mod tagged;
#[cfg(test)]
mod tests;
