ghost use Rattle.std.specs.Prelude.{◌≡◌};
ghost use Rattle.scales.specs.Two.{two};
ghost use Rattle.std.proofs.Common.{rules};

use model::scale::{Scale, StateCommand};

// Weakest first: the derived order is the order of overriding.
#[derive(Clone, Copy, Debug, PartialEq, Eq, PartialOrd, Ord)]
pub enum TwoState {
    Unassign,
    Grant,
}

// Its one-line methods look like those of the other scale: each is what a scale owes the trait.
impl Scale for TwoState {
    ghost states = { two };

    ghost lawful = { Prim.search rules };

    fn overrides(self, other: Self) -> bool {
        self >= other
    }

    // Both do.
    fn travels_up(self) -> bool {
        true
    }

    fn assigned(command: StateCommand) -> Option<Self> {
        (command == StateCommand::Grant).then_some(Self::Grant)
    }

    fn unassign() -> Self {
        Self::Unassign
    }

    fn name(&self) -> &str {
        match self {
            TwoState::Grant => "grant",
            TwoState::Unassign => "unassign",
        }
    }
}
