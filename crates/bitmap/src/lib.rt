// The bitmap table: the assignment store of the five-state scale, with no lent memory.
#![tactic(auto)]

mod code;
pub mod item;
mod object_items;
mod objects;
mod pair;
pub mod row;
pub mod store;
pub mod table;
