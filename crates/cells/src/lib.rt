// The cell list: an assignment store of any scale, with one record for each cell that is not
// unassign, in lent memory.
#![tactic(auto)]

pub mod list;
mod reads;
pub mod record;
pub mod store;
mod writes;
