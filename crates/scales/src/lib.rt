// The scales of states: the five-state scale, and the older servers' scale of two.
#![tactic(auto)]

pub mod five;
#[cfg(test)]
mod tests;
pub mod two;
