// The levels of the roles, which both graphs keep.
ghost use Rattle.std.specs.Prelude.{◌≡◌, ℕ, None as NoLevel, length, replicate, Bool, if◌then◌else◌};
ghost use Rattle.model.specs.declared.principal.Principal.{Principal};
ghost use Rattle.model.specs.Graphs.{new_graph, level_of, falls as falls_to, takes_level, with_level};
ghost use Rattle.graphs.specs.Levels.{level_in, on_level, graph_of, Low};

use crate::link::Link;
use model::principal::{Principal, ROLES, is_role_level, user_level};

#[derive(Drop)]
pub(crate) struct Levels {
    // of a fixed length: nothing here may allocate
    of_roles: [Option<u8>; ROLES as usize],
    ghost sized: { length of_roles ≡ 64 },
    ghost low: { Low of_roles },
}

fn no_levels() -> [Option<u8>; ROLES as usize]
    ensures { result ≡ replicate 64 NoLevel }
{
    [None; ROLES as usize]
}

impl Levels {
    // No role has a level.
    pub(crate) fn new() -> Levels
        ensures { level_in result.of_roles ≡ new_graph.level }
    {
        Levels {
            of_roles: no_levels(),
        }
    }

    fn of_role(&self, role: u8) -> Option<u8>
        ensures { result ≡ level_in self.now.of_roles role }
    {
        self.of_roles.get(role as usize).copied().flatten()
    }

    pub(crate) fn of(&self, principal: Principal) -> Option<u8>
        ensures { result ≡ level_of (level_in self.now.of_roles) principal }
    {
        match principal {
            Principal::User(user) => user_level(user),
            Principal::Role(role) => self.of_role(role),
        }
    }

    pub(crate) fn is_on(&self, role: u8, level: u8) -> bool
        ensures { result ≡ on_level (level_in self.now.of_roles role) level }
    {
        self.of_role(role) == Some(level)
    }

    // Whether both ends of a link exist and the level falls along it.
    pub(crate) fn falls(&self, link: Link) -> bool
        ensures { result ≡ falls_to (level_in self.now.of_roles) link.upper link.lower }
    {
        match (self.of_role(link.lower), self.of(link.upper)) {
            (Some(low), Some(high)) => low < high,
            _ => false,
        }
    }

    // Gives a level to a role that has none, whatever links there are.
    pub(crate) fn give(&mut self, role: u8, level: u8) -> bool
        ensures answer { (linked : Principal → ℕ → Bool) → result ≡ takes_level (graph_of self.old.of_roles linked) role level }
        ensures after { (linked : Principal → ℕ → Bool) → graph_of self.new.of_roles linked ≡ (if takes_level (graph_of self.old.of_roles linked) role level then with_level (graph_of self.old.of_roles linked) role level else graph_of self.old.of_roles linked) }
    {
        if role >= ROLES || !is_role_level(level) || self.of_role(role).is_some() {
            return false;
        }
        self.of_roles[role as usize] = Some(level);
        true
    }
}
