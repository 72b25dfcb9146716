ghost use Rattle.std.specs.Prelude.{◌≡◌};
ghost use Rattle.cells.specs.Listed.{cell_of_record, record_of};

use model::cell::{Cell, Orientation};
use model::place::Place;
use model::principal::Principal;
use model::scale::Scale;

// One record of the list: a place, and the state, orientation and option of its cell. A state that
// travels up is oriented up, and any other down unless it is neutral. It has no `Cell`, whose
// orientation and option might not be allowed: the parts make an allowed cell whatever they are.
#[derive(Clone, Copy)]
pub struct CellRecord<S> {
    pub place: Place,
    pub state: S,
    pub neutral: bool,
    pub option: bool,
}

impl<S: Scale> CellRecord<S> {
    // The record of a cell at a place.
    pub fn new(place: Place, cell: &Cell<S>) -> CellRecord<S>
        ensures { result ≡ record_of place cell.now }
    {
        CellRecord {
            place,
            state: cell.state,
            neutral: cell.orientation == Orientation::Neutral,
            option: cell.option,
        }
    }

    // The cell of a record, an allowed one whatever stands there.
    pub fn cell(&self) -> Cell<S>
        ensures { result ≡ cell_of_record S.Scale.states self.now }
    {
        let orientation = if self.state.travels_up() {
            Orientation::Up
        } else if self.neutral {
            Orientation::Neutral
        } else {
            Orientation::Down
        };
        Cell {
            state: self.state,
            orientation,
            option: self.option && self.state.same(S::granted()),
        }
    }
}

// Who assigned to whom at an object.
#[derive(Clone, Copy, PartialEq, Eq)]
pub(crate) struct Pair {
    pub(crate) object: u8,
    pub(crate) granter: Principal,
    pub(crate) grantee: Principal,
}

impl Pair {
    // The pair of a place.
    pub(crate) fn of(place: Place) -> Pair
        ensures { result ≡ record { object = place.object; granter = place.granter; grantee = place.grantee } }
    {
        Pair {
            object: place.object,
            granter: place.granter,
            grantee: place.grantee,
        }
    }
}
