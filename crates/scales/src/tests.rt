use crate::five::FiveState;
use crate::two::TwoState;
use model::scale::{Scale, StateCommand};

#[test]
fn the_stronger_state_wins(rt: HostRuntime) {
    let weakest_first = [
        (FiveState::Unassign, "unassign"),
        (FiveState::Grant, "grant"),
        (FiveState::Taint, "taint"),
        (FiveState::Suspend, "suspend"),
        (FiveState::Deny, "deny"),
    ];
    let mut strongest = FiveState::unassign();
    for (state, name) in weakest_first {
        strongest = state.join(strongest);
        assert_eq!(rt; strongest.name(), name);
    }
    assert_eq!(rt;
        TwoState::unassign().join(TwoState::granted()).name(),
        "grant"
    );
    assert!(rt; TwoState::assigned(StateCommand::Deny).is_none());
}
