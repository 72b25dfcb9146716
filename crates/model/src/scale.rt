ghost use Rattle.std.specs.Prelude.{◌≡◌, Decides};
ghost use Rattle.model.specs.States.{States, Lawful, join as join_of, same as same_of};
ghost use Rattle.model.specs.Joining.{JoinLaws, joining, Stronger};

// The commands whose state the scale chooses.
#[derive(Clone, Copy, Debug, PartialEq, Eq)]
pub enum StateCommand {
    Grant,
    Taint,
    Suspend,
    Deny,
}

// A scale of states. Whoever implements it owes the laws. It asks for no `Ord` and no `Eq`: to
// override is the one order that the laws speak of, and equality follows from it.
pub trait Scale: Copy {
    ghost states: { States Self };

    fn overrides(self, other: Self) -> bool
        ensures { result ≡ states.overrides self other };

    // Whether the state reaches the roles above; else it reaches those below.
    fn travels_up(self) -> bool
        ensures { result ≡ states.travels_up self };

    // The state that a command assigns, if the scale has one for it.
    fn assigned(command: StateCommand) -> Option<Self>
        ensures { result ≡ states.assigned command };

    // The state of what nobody assigned.
    fn unassign() -> Self
        ensures { result ≡ states.unassign };

    // The printed name.
    fn name(&self) -> &str
        ensures { result.now ≡ states.printed self.now };

    // GRANT's state, which every scale has.
    fn granted() -> Self
        ensures { result ≡ states.granted }
    {
        Self::assigned(StateCommand::Grant).unwrap()
    }

    // Whether the states are equal.
    fn same(self, other: Self) -> bool
        ensures value { result ≡ same_of states self other }
        ensures equal { Decides result (self ≡ other) }
    {
        self.overrides(other) && other.overrides(self)
    }

    // The more overriding of two states.
    fn join(self, other: Self) -> Self
        ensures value { result ≡ join_of states self other }
        ensures stronger { Stronger states self other result }
        ensures laws { JoinLaws (joining states) }
    {
        if self.overrides(other) { self } else { other }
    }

    ghost lawful: { Lawful states };
}
