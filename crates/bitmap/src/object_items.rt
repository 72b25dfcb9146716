ghost use Rattle.std.specs.Prelude.{◌≡◌, length};
ghost use Rattle.bitmap.specs.Tables.{EachValid, EachInRange, OnePerPair};

use crate::row::Row;

// The table of one object: sixteen items, which lie as plain rows.
#[derive(Clone, Copy)]
pub struct ObjectItems {
    // of a fixed length: nothing here may allocate
    pub(crate) rows: [Row; 16],
    ghost sixteen: { length rows ≡ 16 },
    ghost valid: { EachValid rows },
    ghost ranged: { EachInRange rows },
    ghost single: { OnePerPair rows },
}
