// What a principal is answered.
ghost use Rattle.std.specs.Prelude.{◌≡◌, Decides};
ghost use Rattle.access.specs.Masters.{listed};
ghost use Rattle.access.specs.Reaching.{Assigned, IsAnswer, Strongest};
ghost use Rattle.access.specs.Between.{BetweenRoles};
ghost use Rattle.access.specs.RoleByRole.{ActsAs, IsUnder, Towards, Carries, Carried, Inherited, From, AsOwner, Apart, Added};

use crate::access::{Access, roles};
use model::cell::Orientation;
use model::graph::Graph;
use model::principal::Principal;
use model::right::Right;
use model::scale::Scale;
use model::store::Store;

impl<T, G: Graph> Access<'_, T, G> {
    // What was assigned to a principal in one orientation. Right and principal stay two parameters:
    // the same right is asked about for the principal and for each role.
    fn towards<S: Scale>(&self, right: Right, principal: Principal, orientation: Orientation) -> S
    where
        T: Store<S>,
        ensures { Strongest S.Scale.states (Towards (T.cells self.now.store.now) right.object right.privilege principal orientation) result }
    {
        self.store.sound();
        self.store.strongest(right, principal, orientation)
    }

    // All that was assigned to a principal itself.
    fn own<S: Scale>(&self, right: Right, principal: Principal) -> S
    where
        T: Store<S>,
        ensures { Strongest S.Scale.states (Assigned (T.cells self.now.store.now) right.object right.privilege principal) result }
    {
        let up: S = self.towards(right, principal, Orientation::Up);
        let down = self.towards(right, principal, Orientation::Down);
        let neutral = self.towards(right, principal, Orientation::Neutral);
        up.join(down).join(neutral)
    }

    // Whether the principal is the role, or a user who holds it.
    fn acts_as(&self, principal: Principal, role: u8) -> bool
        ensures { Decides result (ActsAs (G.meaning self.now.graph.now) principal role) }
    {
        match principal {
            Principal::Role(own) => own == role,
            Principal::User(_) => self.graph.linked(principal, role),
        }
    }

    // Whether the role is above one that the principal is or holds.
    fn is_under(&self, principal: Principal, role: u8) -> bool
        ensures { Decides result (IsUnder (G.meaning self.now.graph.now) principal role) }
    {
        roles().any(|held| self.acts_as(principal, held) && self.graph.is_above(role, held))
    }

    // Whether what is oriented so at a role comes to the principal: up from a role that it reaches,
    // down from one that it is under.
    fn carries(&self, principal: Principal, role: u8, orientation: Orientation) -> bool
        ensures { Decides result (Carries (G.meaning self.now.graph.now) principal role orientation) }
    {
        match orientation {
            Orientation::Up => self.graph.reaches(principal, Principal::Role(role)),
            Orientation::Down => self.is_under(principal, role),
            Orientation::Neutral => false,
        }
    }

    // What is oriented so at a role, if it comes to the principal. Where nothing is, reach is not
    // asked.
    fn carried<S: Scale>(
        &self,
        right: Right,
        principal: Principal,
        role: u8,
        orientation: Orientation,
    ) -> S
    where
        T: Store<S>,
        ensures { Strongest S.Scale.states (Carried (G.meaning self.now.graph.now) (T.cells self.now.store.now) right.object right.privilege principal role orientation) result }
    {
        let state: S = self.towards(right, Principal::Role(role), orientation);
        // `same`, since a scale has an order and no `==`.
        if !state.same(S::unassign()) && self.carries(principal, role, orientation) {
            state
        } else {
            S::unassign()
        }
    }

    // What a role that the principal neither is nor holds brings it.
    fn inherited<S: Scale>(&self, right: Right, principal: Principal, role: u8) -> S
    where
        T: Store<S>,
        ensures { Strongest S.Scale.states (Inherited (G.meaning self.now.graph.now) (T.cells self.now.store.now) right.object right.privilege principal role) result }
    {
        let up: S = self.carried(right, principal, role, Orientation::Up);
        let down = self.carried(right, principal, role, Orientation::Down);
        up.join(down)
    }

    // What was assigned to a role and reaches the principal.
    fn from_role<S: Scale>(&self, right: Right, principal: Principal, role: u8) -> S
    where
        T: Store<S>,
        ensures { Strongest S.Scale.states (From (G.meaning self.now.graph.now) (T.cells self.now.store.now) right.object right.privilege principal role) result }
    {
        if self.acts_as(principal, role) {
            self.own(right, Principal::Role(role))
        } else {
            self.inherited(right, principal, role)
        }
    }

    // GRANT's state, if the user owns the object.
    fn as_owner<S: Scale>(&self, right: Right, user: u8) -> S
        ensures { Strongest S.Scale.states (AsOwner S.Scale.states (listed self.now.directory.now.entries) right.object user) result }
    {
        if self.directory.is_owner(user, right.object) {
            S::granted()
        } else {
            S::unassign()
        }
    }

    // What no role brings: a user's own cells, and what it has as the owner.
    fn apart_from_roles<S: Scale>(&self, right: Right, principal: Principal) -> S
    where
        T: Store<S>,
        ensures { Strongest S.Scale.states (Apart S.Scale.states (listed self.now.directory.now.entries) (T.cells self.now.store.now) right.object right.privilege principal) result }
    {
        match principal {
            Principal::Role(_) => S::unassign(),
            Principal::User(user) => {
                let assigned: S = self.own(right, principal);
                assigned.join(self.as_owner(right, user))
            }
        }
    }

    // The best state so far, or what one more role brings, if that is stronger.
    fn with_role<S: Scale>(&self, right: Right, principal: Principal, best: S, role: u8) -> S
    where
        T: Store<S>,
        ensures { Added S.Scale.states (From (G.meaning self.now.graph.now) (T.cells self.now.store.now) right.object right.privilege principal role) best result }
    {
        best.join(self.from_role(right, principal, role))
    }

    // The most overriding state that reaches the principal, or unassign. It is worked out from the
    // cells as they stand, each time.
    pub fn answer<S: Scale>(&self, right: Right, principal: Principal) -> S
    where
        T: Store<S>,
        ensures answer { IsAnswer S.Scale.states (G.meaning self.now.graph.now) (listed self.now.directory.now.entries) (T.cells self.now.store.now) right.object right.privilege principal result }
        ensures only { (s : S) → IsAnswer S.Scale.states (G.meaning self.now.graph.now) (listed self.now.directory.now.entries) (T.cells self.now.store.now) right.object right.privilege principal s → s ≡ result }
        ensures between { BetweenRoles S.Scale.states (G.meaning self.now.graph.now) (listed self.now.directory.now.entries) (T.cells self.now.store.now) }
    {
        self.store.sound();
        roles().fold(self.apart_from_roles(right, principal), |best, role| {
            self.with_role(right, principal, best, role)
        })
    }
}
