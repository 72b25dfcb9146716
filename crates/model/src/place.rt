ghost use Rattle.std.specs.Prelude.{◌≡◌};
ghost use Rattle.model.specs.Places.{place_in_range, same_place, same_principal, same_orientation};

use crate::cell::Orientation;
use crate::object::is_object;
use crate::principal::Principal;
use crate::privilege::Privilege;

// Where a cell stands: at an object, from a granter to a grantee, for a privilege.
#[derive(Clone, Copy, Debug, PartialEq, Eq)]
pub struct Place {
    pub object: u8,
    pub granter: Principal,
    pub grantee: Principal,
    pub privilege: Privilege,
}

impl Place {
    // Whether there can be such a place.
    pub fn is_in_range(self) -> bool
        ensures { result ≡ place_in_range self }
    {
        is_object(self.object) && self.granter.is_in_range() && self.grantee.is_in_range()
    }

    pub fn same(self, other: Place) -> bool
        ensures { result ≡ same_place self other }
    {
        self == other
    }
}

pub fn same_principal(a: Principal, b: Principal) -> bool
    ensures { result ≡ same_principal a b }
{
    a == b
}

pub fn same_orientation(one: Orientation, other: Orientation) -> bool
    ensures { result ≡ same_orientation one other }
{
    one == other
}
