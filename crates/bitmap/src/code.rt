// A row's bits read and written, and the item that is made from a row.
ghost use Rattle.std.specs.Prelude.{◌≡◌, ◌+◌, ◌<◌, true, if◌then◌else◌, Decides, IfSome, MatchOption};
ghost use Rattle.bits.specs.Bit.{bit};
ghost use Rattle.model.specs.Allowed.{Allowed, is_allowed};
ghost use Rattle.model.specs.Privileges.{bit as bit_of};
ghost use Rattle.scales.specs.Five.{five};
ghost use Rattle.bitmap.specs.Layout.{code_at, option_at, combination, decode, encode_as, cell_at, valid_at, ValidRow, DigitSet, CodeSet, CellSet};

use crate::item::Item;
use crate::pair::Pair;
use crate::row::Row;
use bits::{digit, is_set, with_bit};
use model::cell::{Cell, Orientation};
use model::privilege::Privilege;
use scales::five::FiveState;

impl Row {
    // Bit k of acl, taint, suspend, deny and neut as one number of five bits.
    fn code(&self, k: u8) -> u32
        ensures value { result ≡ code_at self.now k }
        ensures below { result < 32 }
    {
        let k = u32::from(k);
        16 * digit(self.acl, k)
            + 8 * digit(self.taint, k)
            + 4 * digit(self.suspend, k)
            + 2 * digit(self.deny, k)
            + digit(self.neut, k)
    }

    fn option(&self, k: u8) -> bool
        ensures { result ≡ option_at self.now k }
    {
        is_set(self.acl, option_bit(k))
    }

    fn is_valid_at(&self, k: u8) -> bool
        ensures { result ≡ valid_at self.now k }
    {
        let code = self.code(k);
        match k {
            0..=7 => combination(code).is_some() && (!self.option(k) || code == 0b10000),
            16..=23 => code % 16 == 0,
            _ => code == 0,
        }
    }

    fn is_valid(&self) -> bool
        ensures { Decides result (ValidRow self.now) }
    {
        (0..32).all(|k| self.is_valid_at(k))
    }

    // The cell of a privilege.
    pub(crate) fn cell_for(&self, privilege: Privilege) -> Cell<FiveState>
        ensures { result ≡ cell_at self.now (bit_of privilege) }
    {
        self.cell(privilege.bit())
    }

    pub(crate) fn cell(&self, k: u8) -> Cell<FiveState>
        ensures { result ≡ cell_at self.now k }
    {
        decoded(self.code(k), self.option(k))
    }
}

fn option_bit(k: u8) -> u32
    ensures { result ≡ k + 16 }
{
    u32::from(k) + 16
}

// The state and the orientation of each of the eight combinations.
fn combination(code: u32) -> Option<(FiveState, Orientation)>
    ensures { result ≡ combination code }
{
    Some(match code {
        0b00000 => (FiveState::Unassign, Orientation::Up),
        0b10000 => (FiveState::Grant, Orientation::Up),
        0b01000 => (FiveState::Taint, Orientation::Down),
        0b00100 => (FiveState::Suspend, Orientation::Down),
        0b00010 => (FiveState::Deny, Orientation::Down),
        0b01001 => (FiveState::Taint, Orientation::Neutral),
        0b00101 => (FiveState::Suspend, Orientation::Neutral),
        0b00011 => (FiveState::Deny, Orientation::Neutral),
        _ => return None,
    })
}

// The cell of a combination: an option stands only with grant.
fn decoded(code: u32, option: bool) -> Cell<FiveState>
    ensures { result ≡ decode code option }
{
    match combination(code) {
        Some((state, orientation)) => Cell {
            state,
            orientation,
            option: state == FiveState::Grant && option,
        },
        None => Cell::unassigned(),
    }
}

fn encoded(state: FiveState, orientation: Orientation) -> u32
    ensures value { result ≡ encode_as state orientation }
    ensures below { result < 32 }
{
    match (state, orientation) {
        (FiveState::Unassign, _) => 0b00000,
        (FiveState::Grant, _) => 0b10000,
        (FiveState::Taint, Orientation::Neutral) => 0b01001,
        (FiveState::Taint, _) => 0b01000,
        (FiveState::Suspend, Orientation::Neutral) => 0b00101,
        (FiveState::Suspend, _) => 0b00100,
        (FiveState::Deny, Orientation::Neutral) => 0b00011,
        (FiveState::Deny, _) => 0b00010,
    }
}

// A field with bit k as the code has it at one of its five places.
fn with_digit(field: u32, k: u8, code: u32, place: u32) -> u32
    requires { k < 32 }
    ensures { DigitSet field result k (bit code place) }
{
    with_bit(field, u32::from(k), is_set(code, place))
}

// The field acl with the option of privilege k set or cleared.
fn with_option(acl: u32, k: u8, option: bool) -> u32
    requires { k < 16 }
    ensures { DigitSet acl result (k + 16) (if option then 1 else 0) }
{
    with_bit(acl, option_bit(k), option)
}

impl Row {
    fn with_code(self, k: u8, code: u32, option: bool) -> Row
        requires bit { k < 8 }
        requires code { code < 32 }
        ensures { CodeSet self result k code option }
    {
        Row {
            acl: with_option(with_digit(self.acl, k, code, 4), k, option),
            taint: with_digit(self.taint, k, code, 3),
            suspend: with_digit(self.suspend, k, code, 2),
            deny: with_digit(self.deny, k, code, 1),
            neut: with_digit(self.neut, k, code, 0),
            ..self
        }
    }

    // The item is put back as this row.
    pub(crate) fn put_back(&mut self, item: Item)
        ensures { self.new ≡ item.row }
    {
        *self = item.row;
    }
}

impl TryFrom<Row> for Item {
    ghost use Rattle.bitmap.specs.Tables.{ItemOf};

    type Error = Row;

    ghost try_from_gives = { ItemOf };

    // The item that a row is, if all its bits are valid; else the row is given back.
    fn try_from(row: Row) -> Result<Item, Row> {
        if row.is_valid() {
            Ok(Item { row })
        } else {
            Err(row)
        }
    }
}

impl From<Item> for Row {
    ghost from_gives = { λ item row. row ≡ item.row };

    fn from(item: Item) -> Row {
        item.row
    }
}

impl Item {
    // The item that a row is, if all its bits are valid.
    pub fn from_row(row: Row) -> Option<Item>
        ensures { MatchOption result (ValidRow row → ⊥) (λ item. item.row ≡ row) }
    {
        Item::try_from(row).ok()
    }

    pub fn to_row(self) -> Row
        ensures { result ≡ self.row }
    {
        self.into()
    }

    // The cell of a privilege.
    pub fn cell_for(&self, privilege: Privilege) -> Cell<FiveState>
        ensures { result ≡ cell_at self.now.row (bit_of privilege) }
    {
        self.row.cell_for(privilege)
    }

    // The item with a privilege's cell changed, if the cell is an allowed one.
    pub fn with(self, privilege: Privilege, cell: &Cell<FiveState>) -> Option<Item>
        ensures cells { MatchOption result (Allowed five cell.now → ⊥)
            (λ item. CellSet self.row item.row (bit_of privilege) cell.now) }
        ensures granter { IfSome result (λ item. item.row.granter ≡ self.row.granter) }
        ensures grantee { IfSome result (λ item. item.row.grantee ≡ self.row.grantee) }
    {
        cell.is_allowed().then(|| self.with_cell(privilege, *cell))
    }

    pub(crate) fn with_cell(self, privilege: Privilege, cell: Cell<FiveState>) -> Item
        requires { is_allowed five cell ≡ true }
        ensures cells { CellSet self.row result.row (bit_of privilege) cell }
        ensures granter { result.row.granter ≡ self.row.granter }
        ensures grantee { result.row.grantee ≡ self.row.grantee }
    {
        let code = encoded(cell.state, cell.orientation);
        Item {
            row: self.row.with_code(privilege.bit(), code, cell.option),
        }
    }

    // The item of another pair, or the same: its cells stay.
    pub(crate) fn given_to(self, pair: Pair) -> Item
        ensures { result.row ≡ record self.row { granter = pair.granter; grantee = pair.grantee } }
    {
        Item {
            row: Row {
                granter: pair.granter,
                grantee: pair.grantee,
                ..self.row
            },
        }
    }
}
