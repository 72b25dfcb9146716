// What a slice of records answers.
ghost use Rattle.std.specs.Prelude.{◌≡◌, count_by, fold, position, take};
ghost use Rattle.std.specs.List.{list_any, enumerate_from};
ghost use Rattle.model.specs.Joining.{joining};
ghost use Rattle.model.specs.Places.{same_place};
ghost use Rattle.model.specs.States.{join as join_of, same as same_of};
ghost use Rattle.cells.specs.Kept.{is_of, first_of};
ghost use Rattle.cells.specs.Listed.{cell_of_record, is_for as is_for_of, option_by, state_by};

use crate::record::{CellRecord, Pair};
use model::cell::Orientation;
use model::place::Place;
use model::principal::Principal;
use model::right::Right;
use model::scale::Scale;

fn is_of_pair(place: Place, pair: Pair) -> bool
    ensures { result ≡ is_of place pair.object pair.granter pair.grantee }
{
    Pair::of(place) == pair
}

fn is_for(place: Place, right: Right, grantee: Principal) -> bool
    ensures { result ≡ is_for_of place right grantee }
{
    place.object == right.object && place.grantee == grantee && place.privilege == right.privilege
}

// The record of a place, if there is one.
pub(crate) fn find<S: Scale>(records: &[CellRecord<S>], place: Place) -> Option<usize>
    ensures { result ≡ position (λ r. same_place r.place place) records.now }
{
    records.iter().position(
        |slot|
            ensures { result ≡ same_place slot.now.place place }
        { slot.place == place },
    )
}

pub(crate) fn is_pair_used<S: Scale>(records: &[CellRecord<S>], pair: Pair) -> bool
    ensures { result ≡ list_any (λ r. is_of r.place pair.object pair.granter pair.grantee) records.now }
{
    records.iter().any(|slot| is_of_pair(slot.place, pair))
}

// Whether a record before record i is of a pair.
fn is_pair_before<S: Scale>(records: &[CellRecord<S>], i: usize, pair: Pair) -> bool
    ensures { result ≡ list_any (λ r. is_of r.place pair.object pair.granter pair.grantee) (take i records.now) }
{
    is_pair_used(records.get(..i).unwrap_or(records), pair)
}

// Whether record i, at a place, is at the object and the first of its pair.
fn is_first<S: Scale>(records: &[CellRecord<S>], i: usize, place: Place, object: u8) -> bool
    ensures { result ≡ first_of records.now object (i, place) }
{
    place.object == object && !is_pair_before(records, i, Pair::of(place))
}

// How many pairs there are at an object.
pub(crate) fn count_pairs<S: Scale>(records: &[CellRecord<S>], object: u8) -> usize
    ensures { result ≡ count_by (λ p. first_of records.now object (p.0, p.1.place)) (enumerate_from 0 records.now) }
{
    records
        .iter()
        .enumerate()
        .filter(|(i, slot)| is_first(records, *i, slot.place, object))
        .count()
}

fn option_of<S: Scale>(slot: &CellRecord<S>, right: Right, grantee: Principal) -> bool
    ensures { result ≡ option_by right grantee slot.now.place (cell_of_record S.Scale.states slot.now) }
{
    is_for(slot.place, right, grantee) && slot.cell().option
}

pub(crate) fn has_option<S: Scale>(
    records: &[CellRecord<S>],
    right: Right,
    grantee: Principal,
) -> bool
    ensures { result ≡ list_any (λ r. option_by right grantee r.place (cell_of_record S.Scale.states r)) records.now }
{
    records.iter().any(|slot| option_of(slot, right, grantee))
}

fn state_of<S: Scale>(
    slot: &CellRecord<S>,
    right: Right,
    grantee: Principal,
    orientation: Orientation,
) -> S
    ensures { result ≡ state_by (joining S.Scale.states) right grantee orientation slot.now.place (cell_of_record S.Scale.states slot.now) }
{
    let cell = slot.cell();
    if is_for(slot.place, right, grantee) && orientation == cell.orientation {
        cell.state
    } else {
        S::unassign()
    }
}

pub(crate) fn strongest<S: Scale>(
    records: &[CellRecord<S>],
    right: Right,
    grantee: Principal,
    orientation: Orientation,
) -> S
    ensures { result ≡ fold (λ x r. join_of S.Scale.states (state_by (joining S.Scale.states) right grantee orientation r.place (cell_of_record S.Scale.states r)) x) S.Scale.states.unassign records.now }
{
    records.iter().fold(S::unassign(), |strongest, slot| {
        state_of(slot, right, grantee, orientation).join(strongest)
    })
}

// Thin, for its clause: the state of a cell that has no record.
pub(crate) fn is_unassign<S: Scale>(state: S) -> bool
    ensures { result ≡ same_of S.Scale.states state S.Scale.states.unassign }
{
    state.same(S::unassign())
}
