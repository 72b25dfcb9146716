use crate::privilege::Privilege;

// A privilege on an object: what a principal is given, and what a check asks for.
#[derive(Clone, Copy, Debug, PartialEq, Eq)]
pub struct Right {
    pub object: u8,
    pub privilege: Privilege,
}
