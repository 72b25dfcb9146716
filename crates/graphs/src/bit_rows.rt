// A role graph as rows of bits: for each of the 128 principals the roles that its links lead to.
ghost use Rattle.std.specs.Prelude.{◌≡◌, ℕ, ◌<◌, true, ◌||◌, length, replicate, slice_index};
ghost use Rattle.model.specs.Principals.{in_range};
ghost use Rattle.graphs.specs.Levels.{Kept};
ghost use Rattle.graphs.specs.Rows.{row_of, in_rows, bit_at, some_below, leads, Below};

use crate::levels::Levels;
use crate::link::{Link, has_room};
use crate::role_set::RoleSet;
use model::graph::Graph;
use model::principal::{Principal, ROLES, USER_LEVEL, USERS};

const PRINCIPALS: usize = USERS as usize + ROLES as usize;

#[derive(Drop)]
pub struct BitRows {
    levels: Levels,
    // of a fixed length: nothing here may allocate
    rows: [RoleSet; PRINCIPALS],
    len: usize,
    ghost wide: { length rows ≡ 128 },
    ghost kept: { Kept levels.of_roles (in_rows rows) len },
}

fn no_links() -> [RoleSet; PRINCIPALS]
    ensures { result ≡ replicate 128 0 }
{
    [RoleSet::new(); PRINCIPALS]
}

// The rows of the users come first, then those of the roles.
fn row_of(principal: Principal) -> usize
    requires { in_range principal ≡ true }
    ensures row { result ≡ row_of principal }
    ensures within { result < 128 }
{
    principal.number().unwrap() as usize
}

impl BitRows {
    ghost use Rattle.model.specs.Graphs.{new_graph, takes_link, with_link, without_link};
    ghost use Rattle.graphs.specs.Meanings.{rows_graph};

    // A graph with no levels and no links.
    pub fn new() -> BitRows
        ensures { rows_graph result ≡ new_graph }
    {
        BitRows {
            levels: Levels::new(),
            rows: no_links(),
            len: 0,
        }
    }

    fn takes_link(&self, link: Link) -> bool
        ensures { result ≡ takes_link true (rows_graph self.now) link.upper link.lower }
    {
        self.levels.falls(link) && !self.linked(link.upper, link.lower) && has_room(self.len)
    }

    // The roles that the links of a principal lead to.
    fn row(&self, principal: Principal) -> RoleSet
        requires { in_range principal ≡ true }
        ensures { result ≡ slice_index self.now.rows (row_of principal) }
    {
        self.rows[row_of(principal)]
    }

    fn put(&mut self, link: Link)
        requires { takes_link true (rows_graph self.old) link.upper link.lower ≡ true }
        ensures { rows_graph self.new ≡ with_link (rows_graph self.old) link.upper link.lower }
    {
        self.rows[row_of(link.upper)] = self.row(link.upper).with(link.lower);
        self.len += 1;
    }

    fn take_out(&mut self, link: Link)
        requires { in_rows self.old.rows link.upper link.lower ≡ true }
        ensures { rows_graph self.new ≡ without_link (rows_graph self.old) link.upper link.lower }
    {
        self.rows[row_of(link.upper)] = self.row(link.upper).without(link.lower);
        self.len -= 1;
    }

    // The row of a role, if it is in the set and has the level. It reads the row and asks both in any
    // case, and takes no branch on the set: the time of `reaches` is not to depend on the links.
    fn row_on_level(&self, set: RoleSet, role: u8, level: u8) -> RoleSet
        requires { role < 64 }
        ensures { (j : ℕ) → j < 64 → bit_at result j ≡ leads self.now.levels.of_roles self.now.rows set level j role }
    {
        let taken = set.contains(role) & self.levels.is_on(role, level);
        self.row(Principal::Role(role)).only_if(taken)
    }

    // The set, with the roles that links lead to from its roles of a level.
    fn with_next(&self, set: RoleSet, level: u8) -> RoleSet
        ensures { (j : ℕ) → j < 64 → bit_at result j ≡ some_below (leads self.now.levels.of_roles self.now.rows set level j) 64 || bit_at set j }
    {
        (0..ROLES).fold(set, |next, role| {
            next.union(self.row_on_level(set, role, level))
        })
    }

    // The roles below a principal. Links lead to smaller levels, so that one turn for each level,
    // from the top, finds them all.
    fn below(&self, from: Principal) -> RoleSet
        requires { in_range from ≡ true }
        ensures sound { (k : ℕ) → k < 64 → bit_at result k ≡ true → Below (in_rows self.now.rows) from k }
        ensures complete { (k : ℕ) → Below (in_rows self.now.rows) from k → bit_at result k ≡ true }
    {
        let mut set = self.row(from);
        // A `for`, whose range counts the levels down: the proof of a `fold` would have to itself.
        for level in (0..USER_LEVEL).rev() {
            set = self.with_next(set, level);
        }
        set
    }
}

impl Graph for BitRows {
    ghost use Rattle.std.specs.Prelude.{true};
    ghost use Rattle.graphs.specs.Meanings.{rows_graph, rows_sound};

    ghost meaning = { rows_graph };

    ghost full = { λ _. true };

    ghost sound = { rows_sound };

    fn give_level(&mut self, role: u8, level: u8) -> bool {
        self.levels.give(role, level)
    }

    fn level(&self, principal: Principal) -> Option<u8> {
        self.levels.of(principal)
    }

    fn add(&mut self, upper: Principal, lower: u8) -> bool {
        let link = Link::new(upper, lower);
        let takes = self.takes_link(link);
        if takes {
            self.put(link);
        }
        takes
    }

    fn cut(&mut self, upper: Principal, lower: u8) -> bool {
        let linked = self.linked(upper, lower);
        if linked {
            self.take_out(Link::new(upper, lower));
        }
        linked
    }

    fn linked(&self, upper: Principal, lower: u8) -> bool {
        let link = Link::new(upper, lower);
        link.is_in_range() && self.row(upper).contains(lower)
    }

    fn count(&self) -> usize {
        self.len
    }

    fn reaches(&self, from: Principal, to: Principal) -> bool {
        if !from.is_in_range() || !to.is_in_range() {
            return false;
        }
        if from == to {
            return true;
        }
        match to {
            Principal::Role(role) => self.below(from).contains(role),
            Principal::User(_) => false,
        }
    }

    fn has_full_memory(&self) -> bool {
        true
    }
}
