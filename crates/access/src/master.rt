use model::kind::Kind;

// What the directory keeps of an object: its type, and the user who owns it.
#[derive(Clone, Copy, Debug, PartialEq, Eq)]
pub struct Master {
    pub kind: Kind,
    pub owner: u8,
}
