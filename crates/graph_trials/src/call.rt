// The calls of a graph, and what they tell.
use model::principal::Principal;
use std::fmt;

#[derive(Clone, Copy)]
pub enum Call {
    GiveLevel(u8, u8),
    AskLevel(Principal),
    Add(Principal, u8),
    Cut(Principal, u8),
    AskLink(Principal, u8),
    AskCount,
    AskReach(Principal, Principal),
    AskAbove(u8, u8),
    AskMemory,
}

#[derive(Clone, Copy, PartialEq, Eq)]
pub enum Told {
    Flag(bool),
    Level(Option<u8>),
    Number(usize),
}

impl fmt::Display for Told {
    fn fmt<W: fmt::Write>(&self, f: &mut fmt::Formatter<W>) -> fmt::Result {
        match *self {
            Told::Flag(true) => write!(f, "yes"),
            Told::Flag(false) => write!(f, "no"),
            Told::Level(Some(level)) => write!(f, "level {level}"),
            Told::Level(None) => write!(f, "no level"),
            Told::Number(number) => write!(f, "{number}"),
        }
    }
}
