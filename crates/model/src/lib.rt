// The words of the model: who acts, on what, which privileges there are, and in which states.
#![tactic(auto)]

pub mod cell;
pub mod graph;
pub mod kind;
pub mod object;
pub mod place;
pub mod principal;
pub mod privilege;
pub mod right;
pub mod scale;
pub mod store;
