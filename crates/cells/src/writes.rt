// How the list's records are changed in place.
ghost use Rattle.std.specs.Prelude.{◌≡◌, ◌<◌, true, ◌||◌, length, MatchOption, nat_lt, slice_set};
ghost use Rattle.model.specs.Allowed.{unassigned as unassigned_of};
ghost use Rattle.model.specs.Stores.{put, after_write};
ghost use Rattle.cells.specs.Kept.{Kept, place_at};
ghost use Rattle.cells.specs.Lists.{cells_of, counted, IsAt, IsAbsent, IsHoldable, Becomes, has_room as has_room_of};

use crate::list::CellList;
use crate::reads::{count_pairs, find, is_pair_used};
use crate::record::{CellRecord, Pair};
use model::cell::Cell;
use model::place::Place;
use model::scale::Scale;

// Whether a pair is in use, or another one fits.
fn pair_fits(used: bool, pairs: usize) -> bool
    ensures { result ≡ (used || nat_lt pairs 16) }
{
    used || pairs < 16
}

impl<'a, S: Scale> CellList<'a, S> {
    // One record is written where it lies, and so many count from then on.
    fn rewrite(&mut self, i: usize, slot: CellRecord<S>, len: usize)
        requires inside { i < length self.old.memory.now }
        requires kept { Kept self.old.unassign (slice_set self.old.memory.now i slot) len }
        ensures memory { self.new.memory.now ≡ slice_set self.old.memory.now i slot }
        ensures count { self.new.len ≡ len }
        ensures unassign { self.new.unassign ≡ self.old.unassign }
    {
        self.memory[i] = slot;
        self.len = len;
    }

    fn position(&self, place: Place) -> Option<usize>
        ensures { MatchOption result (IsAbsent S.Scale.states self.now place) (IsAt S.Scale.states self.now place) }
    {
        find(self.records(), place)
    }

    // Writes another cell into record i.
    fn replace(&mut self, i: usize, place: Place, cell: &Cell<S>)
        requires own { IsAt S.Scale.states self.old place i }
        requires holdable { IsHoldable S.Scale.states self.old place cell.now }
        ensures { Becomes S.Scale.states self.old self.new (put (cells_of S.Scale.states self.old) place cell.now) }
    {
        let slot = CellRecord::new(place, cell);
        self.rewrite(i, slot, self.len);
    }

    // Adds a record at the end.
    fn add(&mut self, place: Place, cell: &Cell<S>)
        requires absent { IsAbsent S.Scale.states self.old place }
        requires room { has_room_of S.Scale.states self.old place ≡ true }
        requires holdable { IsHoldable S.Scale.states self.old place cell.now }
        ensures { Becomes S.Scale.states self.old self.new (put (cells_of S.Scale.states self.old) place cell.now) }
    {
        let len = self.len;
        let slot = CellRecord::new(place, cell);
        self.rewrite(len, slot, len + 1);
    }

    // Strikes record i out: the last one takes its slot.
    fn strike(&mut self, i: usize)
        requires { i < counted S.Scale.states self.old }
        ensures { Becomes S.Scale.states self.old self.new (put (cells_of S.Scale.states self.old) (place_at self.old.memory.now i) (unassigned_of S.Scale.states)) }
    {
        let last = self.len - 1;
        let slot = self.memory[last];
        self.rewrite(i, slot, last);
    }

    // Takes a cell away, if there is one.
    pub(crate) fn revoke(&mut self, place: Place)
        ensures { Becomes S.Scale.states self.old self.new (put (cells_of S.Scale.states self.old) place (unassigned_of S.Scale.states)) }
    {
        if let Some(i) = self.position(place) {
            self.strike(i);
        }
    }

    fn has_room(&self, place: Place) -> bool
        ensures { result ≡ has_room_of S.Scale.states self.now place }
    {
        let records = self.records();
        pair_fits(
            is_pair_used(records, Pair::of(place)),
            count_pairs(records, place.object),
        )
    }

    // Writes a cell that is not unassign, if its pair is in use or fits.
    pub(crate) fn assign(&mut self, place: Place, cell: &Cell<S>) -> bool
        requires { IsHoldable S.Scale.states self.old place cell.now }
        ensures told { result ≡ has_room_of S.Scale.states self.old place }
        ensures after { Becomes S.Scale.states self.old self.new (after_write (cells_of S.Scale.states self.old) place cell.now result) }
    {
        if let Some(i) = self.position(place) {
            self.replace(i, place, cell);
            return true;
        }
        if self.has_room(place) {
            self.add(place, cell);
            return true;
        }
        false
    }
}
