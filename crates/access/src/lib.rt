// What reaches a principal, what it is answered, and as whom a user gives.
#![tactic(auto)]

pub mod access;
mod answer;
pub mod directory;
mod granter;
pub mod master;
