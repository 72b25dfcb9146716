ghost use Rattle.cells.specs.Kept.{Kept};

use crate::record::CellRecord;

// The cell list, in memory that is lent to it: the first `len` records count.
#[derive(Drop)]
pub struct CellList<'a, S> {
    pub(crate) memory: &'a mut [CellRecord<S>],
    pub(crate) len: usize,
    // The scale's unassign, which no record has.
    pub(crate) unassign: S,
    ghost kept: { Kept unassign memory.now len },
}
