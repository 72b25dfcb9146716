ghost use Rattle.bitmap.specs.Layout.{ValidRow};

use crate::row::Row;

// A row whose bits are all valid: only the eight combinations, an option only with grant, and no
// unused bit.
#[derive(Clone, Copy)]
pub struct Item {
    pub(crate) row: Row,
    ghost valid: { ValidRow row },
}
