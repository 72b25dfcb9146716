// Two role graphs: rows of bits, and a list of links in lent memory.
#![tactic(auto)]

mod bit_rows;
mod levels;
mod link;
mod link_list;
mod role_set;

pub use bit_rows::BitRows;
pub use link::{LINKS, Link};
pub use link_list::LinkList;
