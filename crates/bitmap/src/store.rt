// The bitmap table as a store of the five-state scale.
ghost use Rattle.std.specs.Prelude.{◌≡◌, true, ◌&&◌, is_some, IfSome};
ghost use Rattle.model.specs.Principals.{in_range, object_in_range};
ghost use Rattle.model.specs.Places.{number as number_of};
ghost use Rattle.model.specs.Stores.{no_cells};
ghost use Rattle.scales.specs.Five.{five};
ghost use Rattle.bitmap.specs.Objects.{rows_of, table_cells};

use crate::object_items::ObjectItems;
use crate::pair::Pair;
use crate::table::BitmapTable;
use model::cell::{Cell, Orientation};
use model::object::is_object;
use model::place::Place;
use model::principal::Principal;
use model::right::Right;
use model::store::Store;
use scales::five::FiveState;

impl BitmapTable {
    // A new table: unassign everywhere.
    pub fn new() -> BitmapTable
        ensures { table_cells result.objects ≡ no_cells five }
    {
        BitmapTable {
            objects: [ObjectItems::empty(); 32],
        }
    }

    // The items of an object, if there can be such a one.
    fn items(&self, object: u8) -> Option<&ObjectItems>
        ensures in_range { is_some result ≡ object_in_range object }
        ensures rows { IfSome result (λ items. items.now.rows ≡ rows_of self.now.objects object) }
    {
        self.objects.get(usize::from(object))
    }

    // The items of an object and the number of a grantee, if there can be both.
    fn items_for(&self, object: u8, grantee: Principal) -> Option<(&ObjectItems, u8)>
        ensures in_range { is_some result ≡ (object_in_range object && in_range grantee) }
        ensures rows { IfSome result (λ found. found.0.now.rows ≡ rows_of self.now.objects object) }
        ensures grantee { IfSome result (λ found. found.1 ≡ number_of grantee) }
    {
        Some((self.items(object)?, grantee.number()?))
    }
}

impl Store<FiveState> for BitmapTable {
    ghost cells = { λ t. table_cells t.objects };

    // It takes no memory.
    ghost full = { λ _. true };

    fn has_full_memory(&self) -> bool {
        true
    }

    fn pairs_in_use(&self, object: u8) -> usize {
        self.items(object).map_or(0, |items| items.count())
    }

    fn is_pair_in_use(&self, object: u8, granter: Principal, grantee: Principal) -> bool {
        let (Some(items), Some(pair)) = (self.items(object), Pair::of(granter, grantee)) else {
            return false;
        };
        items.position(pair).is_some()
    }

    fn has_option(&self, right: Right, grantee: Principal) -> bool {
        self.items_for(right.object, grantee).is_some_and(|(items, grantee)| {
            items.has_option(grantee, right.privilege)
        })
    }

    fn strongest(&self, right: Right, grantee: Principal, orientation: Orientation) -> FiveState {
        self.items_for(right.object, grantee)
            .map_or(FiveState::Unassign, |(items, grantee)| {
                items.strongest(grantee, right.privilege, orientation)
            })
    }

    fn write(&mut self, place: Place, cell: &Cell<FiveState>) -> bool {
        let Some(pair) = Pair::of(place.granter, place.grantee) else {
            return false;
        };
        if !is_object(place.object) || !cell.is_allowed() {
            return false;
        }
        // By an index: of what is written through a `get_mut` of an array a proof learns nothing.
        self.objects[usize::from(place.object)].write(pair, place.privilege, *cell)
    }

    fn sound(&self) {}
}
