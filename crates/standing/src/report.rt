use crate::fault::StandingFault;
use model::principal::Principal;

// What an accepted record reports.
#[derive(Clone, Copy, Debug, PartialEq, Eq)]
pub enum Report<S> {
    // a role, an object or a link was made, or a link cut
    Done,
    // a cell was set, by this granter
    DoneBy(Principal),
    // the state that CHECK asked for
    State(S),
}

pub type Answer<S> = Result<Report<S>, StandingFault>;
