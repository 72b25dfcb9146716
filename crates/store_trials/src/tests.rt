ghost use Rattle.std.specs.Prelude.{◌<◌};

use super::{Write, tells_alike, write_all};
use bitmap::item::Item;
use bitmap::row::Row;
use bitmap::table::BitmapTable;
use cells::list::CellList;
use cells::record::CellRecord;
use model::cell::{Cell, Orientation};
use model::place::Place;
use model::principal::Principal;
use model::privilege::Privilege;
use model::right::Right;
use model::scale::Scale;
use model::store::Store;
use scales::five::FiveState;
use scales::two::TwoState;
use std::array;
use std::process::Abort;

const ORIENTATIONS: [Orientation; 3] = [Orientation::Up, Orientation::Down, Orientation::Neutral];

const PRIVILEGES: [Privilege; 8] = [
    Privilege::Read,
    Privilege::Draw,
    Privilege::Hint,
    Privilege::Proof,
    Privilege::Build,
    Privilege::Export,
    Privilege::Rename,
    Privilege::Drop,
];

fn cell(state: FiveState, orientation: Orientation, option: bool) -> Cell<FiveState> {
    Cell {
        state,
        orientation,
        option,
    }
}

fn place(granter: Principal) -> Place {
    Place {
        object: 3,
        granter,
        grantee: Principal::Role(5),
        privilege: Privilege::Hint,
    }
}

fn right(privilege: Privilege) -> Right {
    Right {
        object: 3,
        privilege,
    }
}

fn unused<S: Scale>() -> CellRecord<S> {
    CellRecord::new(place(Principal::User(0)), &Cell::unassigned())
}

// A sixteenth pair fits, a seventeenth does not, and fits once one has fallen out of use.
fn room<S: Scale, T: Store<S>>(rt: &impl Abort, store: &mut T, granted: &Cell<S>) {
    assert!(rt; store.has_full_memory());
    for granter in 0..16u8 {
        assert!(rt; store.write(place(Principal::User(granter)), granted));
    }
    assert!(rt; store.pairs_in_use(3) == 16);
    assert!(rt; !store.write(place(Principal::User(16)), granted));
    assert!(rt; !store.is_pair_in_use(3, Principal::User(16), Principal::Role(5)));
    assert!(rt; store.write(place(Principal::User(16)), &Cell::unassigned()));
    assert!(rt; store.write(place(Principal::User(7)), &Cell::unassigned()));
    assert!(rt; store.pairs_in_use(3) == 15);
    assert!(rt; !store.is_pair_in_use(3, Principal::User(7), Principal::Role(5)));
    assert!(rt; store.write(place(Principal::User(16)), granted));
    assert!(rt; store.pairs_in_use(3) == 16);
    assert!(rt; store.has_option(right(Privilege::Hint), Principal::Role(5)));
    assert!(rt; !store.has_option(right(Privilege::Draw), Principal::Role(5)));
    assert!(rt; !store.write(place(Principal::User(64)), granted));
}

#[test]
fn sixteen_pairs_fit(rt: HostRuntime) {
    let grant = cell(FiveState::Grant, Orientation::Up, true);
    let mut table = BitmapTable::new();
    room(&rt, &mut table, &grant);
    let mut memory = [unused(); 4096];
    let mut list = CellList::new(&mut memory);
    room(&rt, &mut list, &grant);
    let mut older = [unused(); 4096];
    let mut two = CellList::new(&mut older);
    let older_grant = Cell {
        state: TwoState::Grant,
        orientation: Orientation::Up,
        option: true,
    };
    room(&rt, &mut two, &older_grant);
}

#[test]
fn too_little_memory(rt: HostRuntime) {
    let mut memory = [unused(); 4095];
    let mut list = CellList::new(&mut memory);
    let grant = cell(FiveState::Grant, Orientation::Up, false);
    assert!(rt; !list.has_full_memory());
    assert!(rt; !list.write(place(Principal::User(0)), &grant));
    assert!(rt; !list.write(place(Principal::User(0)), &Cell::unassigned()));
    assert!(rt; list.pairs_in_use(3) == 0);
}

// Write number n of a table that has writes of every kind, refused ones among them: places out of
// range, cells that are not allowed, and more pairs than fit.
fn write_number(n: u32) -> Write<FiveState>
    requires { n < 1000 }
{
    let object = if n % 29 == 0 { 32 } else { (n % 3) as u8 };
    let granter = (n * 7 % 23) as u8;
    let granter = if n % 31 == 0 {
        Principal::User(64 + granter)
    } else if n % 2 == 0 {
        Principal::User(granter)
    } else {
        Principal::Role(granter)
    };
    let grantee = Principal::Role((n * 11 % 5) as u8);
    let privilege = PRIVILEGES[(n * 5 % 8) as usize];
    let state = match n * 13 % 7 {
        0 => FiveState::Deny,
        1 => FiveState::Suspend,
        2 => FiveState::Taint,
        3 => FiveState::Unassign,
        _ => FiveState::Grant,
    };
    let orientation = if state.travels_up() && n % 17 != 0 {
        Orientation::Up
    } else if n % 5 < 2 {
        Orientation::Neutral
    } else {
        Orientation::Down
    };
    Write {
        place: Place {
            object,
            granter,
            grantee,
            privilege,
        },
        cell: cell(state, orientation, n % 4 == 0),
    }
}

fn table_of_writes() -> [Write<FiveState>; 400] {
    array::from_fn(|n| write_number(n as u32))
}

// The table has accepted writes, and writes that are refused: for room, and for want of sense.
fn has_every_kind(writes: &[Write<FiveState>]) -> bool {
    let mut table = BitmapTable::new();
    let mut accepted = false;
    let mut no_room = false;
    let mut no_sense = false;
    for write in writes {
        if table.write(write.place, &write.cell) {
            accepted = true;
        } else if write.place.is_in_range() && write.cell.is_allowed() {
            no_room = true;
        } else {
            no_sense = true;
        }
    }
    accepted & no_room & no_sense
}

// Both stores are told the same writes, and then asked everything about the places written.
#[test]
fn both_tell_the_same(rt: HostRuntime) {
    let writes = table_of_writes();
    assert!(rt; has_every_kind(&writes));
    let mut table = BitmapTable::new();
    let mut memory = [unused(); 4096];
    let mut list = CellList::new(&mut memory);
    assert!(rt; write_all(&mut table, &mut list, &writes));
    for write in &writes {
        for orientation in ORIENTATIONS {
            assert!(rt; tells_alike(&table, &list, write.place, orientation));
        }
    }
}

// The five fields of a row, at bit k, from a number of five bits.
fn row(code: u32, k: u8) -> Row
    requires { k < 8 }
{
    Row {
        granter: 0,
        grantee: 0,
        acl: ((code >> 4) & 1) << k,
        taint: ((code >> 3) & 1) << k,
        suspend: ((code >> 2) & 1) << k,
        deny: ((code >> 1) & 1) << k,
        neut: (code & 1) << k,
    }
}

const TABLE: [(u32, FiveState, Orientation); 8] = [
    (0b00000, FiveState::Unassign, Orientation::Up),
    (0b10000, FiveState::Grant, Orientation::Up),
    (0b01000, FiveState::Taint, Orientation::Down),
    (0b00100, FiveState::Suspend, Orientation::Down),
    (0b00010, FiveState::Deny, Orientation::Down),
    (0b01001, FiveState::Taint, Orientation::Neutral),
    (0b00101, FiveState::Suspend, Orientation::Neutral),
    (0b00011, FiveState::Deny, Orientation::Neutral),
];

fn reads(row: Row, privilege: Privilege, listed: Cell<FiveState>) -> bool {
    Item::from_row(row).is_some_and(|item| item.cell_for(privilege) == listed)
}

fn writes(empty: Row, privilege: Privilege, listed: Cell<FiveState>, row: Row) -> bool {
    Item::from_row(empty)
        .and_then(|item| item.with(privilege, &listed))
        .is_some_and(|made| made.to_row() == row)
}

fn is_listed(code: u32) -> bool {
    TABLE.iter().any(|(listed, _, _)| *listed == code)
}

// Bits to cell and cell to bits, for each of the eight privileges, and no other combination.
#[test]
fn the_truth_table_both_ways(rt: HostRuntime) {
    for privilege in PRIVILEGES {
        let k = privilege.bit();
        for (code, state, orientation) in TABLE {
            let listed = cell(state, orientation, false);
            assert!(rt; reads(row(code, k), privilege, listed));
            assert!(rt; writes(row(0, k), privilege, listed, row(code, k)));
        }
        let granted = cell(FiveState::Grant, Orientation::Up, true);
        let mut option = row(0b10000, k);
        option.acl = option.acl | (1 << (k + 16));
        assert!(rt; reads(option, privilege, granted));
        assert!(rt; writes(row(0, k), privilege, granted, option));
        for code in 0..32u32 {
            assert!(rt; Item::from_row(row(code, k)).is_some() == is_listed(code));
        }
    }
}
