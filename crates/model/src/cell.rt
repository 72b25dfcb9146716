ghost use Rattle.std.specs.Prelude.{◌≡◌, IfSome, Decides};
ghost use Rattle.model.specs.Allowed.{Allowed, is_allowed, OnlyAllowed, unassigned as unassigned_of, set_by, fitting};

use crate::scale::{Scale, StateCommand};

// Which other principals a cell reaches: those above, those below, or none.
#[derive(Clone, Copy, Debug, PartialEq, Eq)]
pub enum Orientation {
    Up,
    Down,
    Neutral,
}

// What one granter assigned to one grantee for an object and a privilege.
#[derive(Clone, Copy, Debug, PartialEq, Eq)]
pub struct Cell<S> {
    pub state: S,
    pub orientation: Orientation,
    pub option: bool,
}

impl<S: Scale> Cell<S> {
    // The cell of what nobody assigned: no other allowed cell has its state.
    pub fn unassigned() -> Cell<S>
        ensures value { result ≡ unassigned_of S.Scale.states }
        ensures only { OnlyAllowed S.Scale.states result }
    {
        Cell {
            state: S::unassign(),
            orientation: Orientation::Up,
            option: false,
        }
    }

    // The cell of the state that a command assigns: neutral, or oriented as the state travels.
    fn assigned(command: StateCommand, neutral: bool, option: bool) -> Option<Cell<S>>
        ensures { result ≡ set_by S.Scale.states command neutral option }
    {
        let state = S::assigned(command)?;
        let orientation = if neutral {
            Orientation::Neutral
        } else if state.travels_up() {
            Orientation::Up
        } else {
            Orientation::Down
        };
        Some(Cell {
            state,
            orientation,
            option,
        })
    }

    // The cell that a command sets, if the scale has a state for it. It is allowed exactly if an
    // option comes with GRANT only, and neutral with the others only.
    pub fn set_by(command: StateCommand, neutral: bool, option: bool) -> Option<Cell<S>>
        ensures value { result ≡ set_by S.Scale.states command neutral option }
        ensures allowed { IfSome result (λ c. Decides (fitting command neutral option) (Allowed S.Scale.states c)) }
    {
        Cell::assigned(command, neutral, option)
    }

    // Whether a store may hold the cell.
    pub fn is_allowed(&self) -> bool
        ensures value { result ≡ is_allowed S.Scale.states self.now }
        ensures decides { Decides result (Allowed S.Scale.states self.now) }
    {
        if self.option && !self.state.same(S::granted()) {
            return false;
        }
        match self.orientation {
            Orientation::Up => self.state.travels_up(),
            Orientation::Down | Orientation::Neutral => !self.state.travels_up(),
        }
    }
}
