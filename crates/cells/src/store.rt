// The cell list as a store of any scale.
ghost use Rattle.std.specs.Prelude.{◌≡◌, ◌≤◌, length, nat_le, take};
ghost use Rattle.model.specs.Stores.{no_cells};
ghost use Rattle.cells.specs.Lists.{cells_of, counted as counted_of, is_ample as is_ample_of};

use crate::list::CellList;
use crate::reads::{count_pairs, has_option, is_pair_used, is_unassign, strongest};
use crate::record::{CellRecord, Pair};
use model::cell::{Cell, Orientation};
use model::place::Place;
use model::principal::Principal;
use model::right::Right;
use model::scale::Scale;
use model::store::Store;

// The list's full memory, in records.
pub const RECORDS: usize = 4096;

impl<'a, S: Scale> CellList<'a, S> {
    // A new list: unassign everywhere. It has its full memory if that is lent.
    pub fn new(memory: &'a mut [CellRecord<S>]) -> CellList<'a, S>
        ensures memory { is_ample_of S.Scale.states result ≡ nat_le 4096 (length memory.old) }
        ensures unassign { result.unassign ≡ S.Scale.states.unassign }
        ensures empty { cells_of S.Scale.states result ≡ no_cells S.Scale.states }
    {
        let unassign = S::unassign();
        CellList {
            memory,
            len: 0,
            unassign,
        }
    }

    fn is_ample(&self) -> bool
        ensures { result ≡ is_ample_of S.Scale.states self.now }
    {
        RECORDS <= self.memory.len() && is_unassign(self.unassign)
    }

    // How many records count: none where the unassign is not the scale's, which a type of any `S`
    // cannot keep.
    fn counted(&self) -> usize
        ensures value { result ≡ counted_of S.Scale.states self.now }
        ensures within { result ≤ length self.now.memory.now }
    {
        if is_unassign(self.unassign) {
            self.len
        } else {
            0
        }
    }

    // The records that count.
    pub(crate) fn records(&self) -> &[CellRecord<S>]
        ensures { result.now ≡ take (counted_of S.Scale.states self.now) self.now.memory.now }
    {
        &self.memory[..self.counted()]
    }
}

impl<'a, S: Scale> Store<S> for CellList<'a, S> {
    ghost cells = { λ t. cells_of S.Scale.states t };

    ghost full = { λ t. is_ample_of S.Scale.states t };

    fn has_full_memory(&self) -> bool {
        self.is_ample()
    }

    fn pairs_in_use(&self, object: u8) -> usize {
        count_pairs(self.records(), object)
    }

    fn is_pair_in_use(&self, object: u8, granter: Principal, grantee: Principal) -> bool {
        let pair = Pair {
            object,
            granter,
            grantee,
        };
        is_pair_used(self.records(), pair)
    }

    fn has_option(&self, right: Right, grantee: Principal) -> bool {
        has_option(self.records(), right, grantee)
    }

    fn strongest(&self, right: Right, grantee: Principal, orientation: Orientation) -> S {
        strongest(self.records(), right, grantee, orientation)
    }

    fn write(&mut self, place: Place, cell: &Cell<S>) -> bool {
        if !self.is_ample() || !place.is_in_range() || !cell.is_allowed() {
            return false;
        }
        if is_unassign(cell.state) {
            self.revoke(place);
            return true;
        }
        self.assign(place, cell)
    }

    fn sound(&self) {}
}
