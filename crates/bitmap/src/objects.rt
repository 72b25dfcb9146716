// What the items of one object answer, and how one of them is rewritten.
ghost use Rattle.std.specs.Prelude.{◌≡◌, ◌<◌, true, not, length, replicate, count_by, position, slice_set};
ghost use Rattle.std.specs.List.{list_any};
ghost use Rattle.model.specs.Allowed.{is_allowed};
ghost use Rattle.model.specs.Joining.{joining};
ghost use Rattle.model.specs.Privileges.{bit as bit_of};
ghost use Rattle.model.specs.Stores.{assigned};
ghost use Rattle.scales.specs.Five.{five};
ghost use Rattle.bitmap.specs.Items.{pair_of, RoomFor, ItemSet, Written};
ghost use Rattle.bitmap.specs.Tables.{empty_row, row_at, row_in_use, row_is_of, row_is_for, row_option, row_state, rows_strongest, items_of};

use crate::item::Item;
use crate::object_items::ObjectItems;
use crate::pair::Pair;
use crate::row::Row;
use model::cell::{Cell, Orientation};
use model::privilege::Privilege;
use model::scale::Scale;
use scales::five::FiveState;

// Thin, for its clause, on which the proofs of both callers stand.
fn is_assigned(state: FiveState) -> bool
    ensures { result ≡ assigned (joining five) state }
{
    state != FiveState::Unassign
}

impl Row {
    // As one value: the derived `default` promises each field alone.
    fn empty() -> Row
        ensures { result ≡ empty_row }
    {
        Row::default()
    }

    // Whether any of its cells is not unassign.
    fn is_in_use(&self) -> bool
        ensures { result ≡ row_in_use self.now }
    {
        (0..8).any(|k| is_assigned(self.cell(k).state))
    }

    // Whether it is in use for a pair.
    fn is_of(&self, pair: Pair) -> bool
        ensures { result ≡ row_is_of pair.granter pair.grantee self.now }
    {
        self.is_in_use() && self.granter == pair.granter && self.grantee == pair.grantee
    }

    // Whether it is in use for a grantee.
    fn is_for(&self, grantee: u8) -> bool
        ensures { result ≡ row_is_for grantee self.now }
    {
        self.is_in_use() && self.grantee == grantee
    }

    fn option_for(&self, grantee: u8, privilege: Privilege) -> bool
        ensures { result ≡ row_option grantee (bit_of privilege) self.now }
    {
        self.is_for(grantee) && self.cell_for(privilege).option
    }

    fn state_for(&self, grantee: u8, privilege: Privilege, orientation: Orientation) -> FiveState
        ensures { result ≡ row_state grantee (bit_of privilege) orientation self.now }
    {
        let cell = self.cell_for(privilege);
        if self.is_for(grantee) && cell.orientation == orientation {
            cell.state
        } else {
            FiveState::Unassign
        }
    }
}

impl ObjectItems {
    pub(crate) fn empty() -> ObjectItems
        ensures { result.rows ≡ replicate 16 empty_row }
    {
        ObjectItems {
            rows: [Row::empty(); 16],
        }
    }

    // The item of a pair, if the pair is in use.
    pub(crate) fn position(&self, pair: Pair) -> Option<usize>
        ensures { result ≡ position (row_is_of pair.granter pair.grantee) self.now.rows }
    {
        self.rows.iter().position(|row| row.is_of(pair))
    }

    // An item that is not in use, if there is one.
    fn free(&self) -> Option<usize>
        ensures { result ≡ position (λ row. not (row_in_use row)) self.now.rows }
    {
        self.rows.iter().position(|row| !row.is_in_use())
    }

    pub(crate) fn count(&self) -> usize
        ensures { result ≡ count_by row_in_use self.now.rows }
    {
        self.rows.iter().filter(|row| row.is_in_use()).count()
    }

    pub(crate) fn has_option(&self, grantee: u8, privilege: Privilege) -> bool
        ensures { result ≡ list_any (row_option grantee (bit_of privilege)) self.now.rows }
    {
        self.rows
            .iter()
            .any(|row| row.option_for(grantee, privilege))
    }

    pub(crate) fn strongest(
        &self,
        grantee: u8,
        privilege: Privilege,
        orientation: Orientation,
    ) -> FiveState
        ensures { result ≡ rows_strongest grantee (bit_of privilege) orientation self.now.rows }
    {
        self.rows.iter().fold(FiveState::Unassign, |before, row| {
            row.state_for(grantee, privilege, orientation).join(before)
        })
    }

    // The item that row i is: every row of the table passes the check.
    fn item(&self, i: usize) -> Item
        requires { i < 16 }
        ensures { result.row ≡ row_at self.now.rows i }
    {
        Item::from_row(self.rows[i]).unwrap()
    }

    // Gives item i to the pair, with one cell changed.
    fn put(&mut self, i: usize, pair: Pair, privilege: Privilege, cell: Cell<FiveState>)
        requires item { i < 16 }
        requires allowed { is_allowed five cell ≡ true }
        requires room { RoomFor (joining five) (items_of self.old.rows) i (pair_of pair.granter pair.grantee) }
        ensures { ItemSet (items_of self.old.rows) (items_of self.new.rows) i
            (pair_of pair.granter pair.grantee) (bit_of privilege) cell }
    {
        let item = self.item(i).with_cell(privilege, cell).given_to(pair);
        put_back(&mut self.rows, i, item);
    }

    // Writes one cell of a pair, if it is unassign, the pair is in use or an item is free.
    pub(crate) fn write(&mut self, pair: Pair, privilege: Privilege, cell: Cell<FiveState>) -> bool
        requires { is_allowed five cell ≡ true }
        ensures { Written five (items_of self.old.rows) (items_of self.new.rows)
            (pair_of pair.granter pair.grantee) (bit_of privilege) cell result }
    {
        if let Some(i) = self.position(pair) {
            self.put(i, pair, privilege, cell);
            return true;
        }
        if !is_assigned(cell.state) {
            return true;
        }
        let Some(i) = self.free() else {
            return false;
        };
        self.put(i, pair, privilege, cell);
        true
    }
}

// Lends row i alone, which becomes the item: the others stay.
fn put_back(rows: &mut [Row], i: usize, item: Item)
    requires { i < length rows.old }
    ensures { rows.new ≡ slice_set rows.old i item.row }
{
    let row = &mut rows[i];
    row.put_back(item);
}
