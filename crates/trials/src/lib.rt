// Inputs and texts at the edges of what records and lines may be, with what becomes of them.
#![tactic(auto)]

#[cfg(test)]
mod records;
