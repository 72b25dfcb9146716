// Records as lines of text, for people: listing an input, and composing one from lines.
#![tactic(auto)]

pub mod bodies;
pub mod composing;
mod escape;
mod line;
pub mod listing;
mod split;
