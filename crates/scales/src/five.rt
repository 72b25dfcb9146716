ghost use Rattle.std.specs.Prelude.{◌≡◌};
ghost use Rattle.scales.specs.Five.{five};
ghost use Rattle.std.proofs.Common.{rules};

use model::scale::{Scale, StateCommand};

// Weakest first: the derived order is the order of overriding.
#[derive(Clone, Copy, Debug, PartialEq, Eq, PartialOrd, Ord)]
pub enum FiveState {
    Unassign,
    Grant,
    Taint,
    Suspend,
    Deny,
}

// Its one-line methods look like those of the other scale: each is what a scale owes the trait.
impl Scale for FiveState {
    ghost states = { five };

    ghost lawful = { Prim.search rules };

    fn overrides(self, other: Self) -> bool {
        self >= other
    }

    fn travels_up(self) -> bool {
        matches!(self, FiveState::Grant | FiveState::Unassign)
    }

    fn assigned(command: StateCommand) -> Option<Self> {
        let state = match command {
            StateCommand::Grant => Self::Grant,
            StateCommand::Taint => Self::Taint,
            StateCommand::Suspend => Self::Suspend,
            StateCommand::Deny => Self::Deny,
        };
        Some(state)
    }

    fn unassign() -> Self {
        Self::Unassign
    }

    fn name(&self) -> &str {
        match self {
            FiveState::Deny => "deny",
            FiveState::Suspend => "suspend",
            FiveState::Taint => "taint",
            FiveState::Grant => "grant",
            FiveState::Unassign => "unassign",
        }
    }
}
