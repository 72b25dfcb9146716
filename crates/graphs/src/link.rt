// Links between principals and roles.
ghost use Rattle.std.specs.Prelude.{◌≡◌, ◌&&◌, nat_lt, Decides};
ghost use Rattle.model.specs.Principals.{in_range};
ghost use Rattle.graphs.specs.Records.{link};

use model::principal::{Principal, ROLES};

// The most links that a graph holds.
pub const LINKS: usize = 256;

// A link from a principal to a role below it.
#[derive(Clone, Copy, PartialEq, Eq)]
pub struct Link {
    pub upper: Principal,
    pub lower: u8,
}

impl Link {
    pub fn new(upper: Principal, lower: u8) -> Link
        ensures { result ≡ link upper lower }
    {
        Link { upper, lower }
    }

    // Whether there can be such principals.
    pub(crate) fn is_in_range(self) -> bool
        ensures { result ≡ in_range self.upper && nat_lt self.lower 64 }
    {
        self.upper.is_in_range() && self.lower < ROLES
    }
}

// Whether two principals are one, kind by kind: the derived `==` asks for the kind once more before it
// compares the numbers, and the link list asks this of each record that it tries.
pub(crate) fn is_one(a: Principal, b: Principal) -> bool
    ensures { Decides result (a ≡ b) }
{
    match (a, b) {
        (Principal::User(m), Principal::User(n)) => m == n,
        (Principal::Role(m), Principal::Role(n)) => m == n,
        _ => false,
    }
}

// Both graphs ask this in a `takes_link` of their own, and have an `add` and a `cut` of their own: none
// of these can call a function over any `Graph`, since that may call it again.
pub(crate) fn has_room(count: usize) -> bool
    ensures { result ≡ nat_lt count 256 }
{
    count < LINKS
}
