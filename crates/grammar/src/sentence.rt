use model::kind::Kind;
use model::principal::Principal;
use model::privilege::Privilege;

// A command that takes a privilege away, or keeps it back.
#[derive(Clone, Copy, Debug, PartialEq, Eq)]
pub enum Restriction {
    Taint,
    Suspend,
    Deny,
}

// What the first word of a sentence asks for.
#[derive(Clone, Copy, Debug, PartialEq, Eq)]
pub enum Command {
    Role,
    Object,
    Link,
    Cut,
    Grant,
    Restrict(Restriction),
    Revoke,
    Check,
}

// What a body says. Privilege and object are fields here and no `Right`: the statements of the
// history read them by name, in the order in which a sentence has them.
#[derive(Clone, Copy, Debug, PartialEq, Eq)]
pub enum Sentence {
    Role {
        role: u8,
        level: u8,
    },
    Object {
        object: u8,
        kind: Kind,
        owner: u8,
    },
    Link {
        role: u8,
        upper: Principal,
    },
    Cut {
        role: u8,
        upper: Principal,
    },
    Grant {
        privilege: Privilege,
        object: u8,
        grantee: Principal,
        option: bool,
    },
    Restrict {
        restriction: Restriction,
        privilege: Privilege,
        object: u8,
        grantee: Principal,
        neutral: bool,
    },
    Revoke {
        privilege: Privilege,
        object: u8,
        grantee: Principal,
    },
    Check {
        privilege: Privilege,
        object: u8,
        principal: Principal,
    },
}

// That a body is no sentence: the offset of the first word that no sentence has there, or the
// body's length.
#[derive(Clone, Copy, Debug, PartialEq, Eq)]
pub struct Misworded {
    pub at: usize,
}
