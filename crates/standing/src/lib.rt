// What a record is answered: what was done, or why it was refused.
#![tactic(auto)]

pub mod fault;
pub mod report;
