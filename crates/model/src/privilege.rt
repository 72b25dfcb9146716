ghost use Rattle.std.specs.Prelude.{◌≡◌, ◌<◌, ◌≤◌, Some, MatchOption};
ghost use Rattle.model.specs.Privileges.{bit as bit_of, PrivilegeOf};

pub const PRIVILEGES: u8 = 8;

// What a principal may do to a master; privilege k is bit k of a mask.
#[derive(Clone, Copy, Debug, PartialEq, Eq)]
pub enum Privilege {
    Read,
    Draw,
    Hint,
    Proof,
    Build,
    Export,
    Rename,
    Drop,
}

impl Privilege {
    pub fn bit(self) -> u8
        ensures value { result ≡ bit_of self }
        ensures below { result < 8 }
    {
        self as u8
    }

    // The privilege that has a bit; bits 8 and above have none.
    pub fn from_bit(bit: u8) -> Option<Privilege>
        ensures found { MatchOption result (8 ≤ bit) (λ p. bit_of p ≡ bit) }
        ensures only { (p : Privilege) → bit_of p ≡ bit → result ≡ Some p }
    {
        Privilege::try_from(bit).ok()
    }
}

// A bit that no privilege has.
#[derive(Clone, Copy, Debug, PartialEq, Eq)]
pub struct NoPrivilege {
    pub bit: u8,
}

impl TryFrom<u8> for Privilege {
    type Error = NoPrivilege;

    ghost try_from_gives = { PrivilegeOf };

    fn try_from(bit: u8) -> Result<Privilege, NoPrivilege> {
        match bit {
            0 => Ok(Privilege::Read),
            1 => Ok(Privilege::Draw),
            2 => Ok(Privilege::Hint),
            3 => Ok(Privilege::Proof),
            4 => Ok(Privilege::Build),
            5 => Ok(Privilege::Export),
            6 => Ok(Privilege::Rename),
            7 => Ok(Privilege::Drop),
            _ => Err(NoPrivilege { bit }),
        }
    }
}
