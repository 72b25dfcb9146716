ghost use Rattle.std.specs.Prelude.{◌≡◌, ◌<◌, is_some, IfSome};
ghost use Rattle.model.specs.Places.{number as number_of};
ghost use Rattle.model.specs.Principals.{in_range, user_level, role_level_in_range};

pub const USERS: u8 = 64;

pub const ROLES: u8 = 64;

// The level of every user. Roles have levels below it.
pub const USER_LEVEL: u8 = 8;

// A user or a role, by its number.
#[derive(Clone, Copy, Debug, PartialEq, Eq)]
pub enum Principal {
    User(u8),
    Role(u8),
}

impl Principal {
    // Whether there can be such a user or role.
    pub fn is_in_range(self) -> bool
        ensures { result ≡ in_range self }
    {
        match self {
            Principal::User(user) => user < USERS,
            Principal::Role(role) => role < ROLES,
        }
    }

    // The number among all principals, users first and then roles, if there can be such a one.
    pub fn number(self) -> Option<u8>
        ensures in_range { is_some result ≡ in_range self }
        ensures value { IfSome result (λ n. n ≡ number_of self) }
        ensures below { IfSome result (λ n. n < 128) }
    {
        match self {
            Principal::User(user) if user < USERS => Some(user),
            Principal::Role(role) if role < ROLES => Some(USERS + role),
            _ => None,
        }
    }
}

// Users always exist and have their level; a number out of range names none.
pub fn user_level(user: u8) -> Option<u8>
    ensures { result ≡ user_level user }
{
    (user < USERS).then_some(USER_LEVEL)
}

// Whether a role can have the level.
pub fn is_role_level(level: u8) -> bool
    ensures { result ≡ role_level_in_range level }
{
    level < USER_LEVEL
}
