ghost use Rattle.std.specs.Prelude.{◌≡◌};

use crate::directory::Directory;
use model::principal::ROLES;
use std::ops::Range;

// What an answer is worked out from: who owns each object, what was assigned, and who stands above
// whom.
#[derive(Drop)]
pub struct Access<'a, T, G> {
    pub directory: &'a Directory,
    pub store: &'a T,
    pub graph: &'a G,
}

// The numbers of all roles.
pub(crate) fn roles() -> Range<u8>
    ensures { result ≡ record { start = 0; end = 64 } }
{
    0..ROLES
}
