// As whom a user gives.
ghost use Rattle.std.specs.Prelude.{◌≡◌, Decides, Option};
ghost use Rattle.access.specs.Masters.{listed};
ghost use Rattle.access.specs.Giving.{Optioned, InOwnRight, Through, IsLowest, GranterIs};

use crate::access::{Access, roles};
use model::graph::Graph;
use model::principal::Principal;
use model::right::Right;
use model::scale::Scale;
use model::store::Store;

impl<T, G: Graph> Access<'_, T, G> {
    // Whether a principal has an option, from any granter.
    fn is_optioned<S: Scale>(&self, right: Right, principal: Principal) -> bool
    where
        T: Store<S>,
        ensures { Decides result (Optioned (T.cells self.now.store.now) right.object right.privilege principal) }
    {
        self.store.sound();
        self.store.has_option(right, principal)
    }

    // Whether a user gives as itself: it owns the object, or has an option.
    fn gives_as_itself<S: Scale>(&self, right: Right, user: u8) -> bool
    where
        T: Store<S>,
        ensures { Decides result (InOwnRight (listed self.now.directory.now.entries) (T.cells self.now.store.now) user right.object right.privilege) }
    {
        self.directory.is_owner(user, right.object)
            || self.is_optioned(right, Principal::User(user))
    }

    // Whether a role has an option and the user reaches it. Where it has none, reach is not asked.
    fn gives_through<S: Scale>(&self, right: Right, user: u8, role: u8) -> bool
    where
        T: Store<S>,
        ensures { Decides result (Through (G.meaning self.now.graph.now) (T.cells self.now.store.now) user right.object right.privilege role) }
    {
        let role = Principal::Role(role);
        self.is_optioned(right, role) && self.graph.reaches(Principal::User(user), role)
    }

    // The lowest-numbered role through which the user gives, if there is one.
    fn lowest_role<S: Scale>(&self, right: Right, user: u8) -> Option<u8>
    where
        T: Store<S>,
        ensures { IsLowest (Through (G.meaning self.now.graph.now) (T.cells self.now.store.now) user right.object right.privilege) result }
    {
        roles().find(|role| self.gives_through(right, user, *role))
    }

    // The owner and whoever has an option in its own right gives as itself; any other user as the
    // lowest-numbered role with an option that it reaches, if there is one.
    pub fn granter<S: Scale>(&self, right: Right, user: u8) -> Option<Principal>
    where
        T: Store<S>,
        ensures answer { GranterIs (G.meaning self.now.graph.now) (listed self.now.directory.now.entries) (T.cells self.now.store.now) user right.object right.privilege result }
        ensures only { (q : Option Principal) → GranterIs (G.meaning self.now.graph.now) (listed self.now.directory.now.entries) (T.cells self.now.store.now) user right.object right.privilege q → q ≡ result }
    {
        if self.gives_as_itself(right, user) {
            return Some(Principal::User(user));
        }
        self.lowest_role(right, user).map(Principal::Role)
    }
}
