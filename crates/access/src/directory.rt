// The type and the owner of each object, and how objects come into being.
ghost use Rattle.std.specs.Prelude.{◌≡◌, length, if◌then◌else◌, Decides};
ghost use Rattle.access.specs.Masters.{Table, listed, no_masters, takes_master, with_master, Owns};

use crate::master::Master;
use model::object::{OBJECTS, is_object};
use model::principal::Principal;
use std::marker::Model;

#[derive(Drop)]
pub struct Directory {
    // of a fixed length: nothing here may allocate
    entries: [Option<Master>; OBJECTS as usize],
    ghost sized: { length entries ≡ 32 },
}

impl Model for Directory {
    ghost Value = { Table };

    ghost view = { λ d. record { entries = d.entries; sized = d.sized } };
}

impl Directory {
    // A directory in which no object exists.
    #[tactic(auto, using(crate::proofs::NewDirectory::none_listed))]
    pub fn new() -> Directory
        ensures { listed result.entries ≡ no_masters }
    {
        Directory {
            entries: [None; OBJECTS as usize],
        }
    }

    // The type and the owner of an object, if it exists.
    pub fn master(&self, object: u8) -> Option<Master>
        ensures { result ≡ listed self.now.entries object }
    {
        self.entries.get(object as usize).copied().flatten()
    }

    // Makes an object that does not exist yet, and says whether it did.
    pub fn register(&mut self, object: u8, master: Master) -> bool
        ensures answer { result ≡ takes_master (listed self.old.entries) object master }
        ensures after { listed self.new.entries ≡ (if takes_master (listed self.old.entries) object master then with_master (listed self.old.entries) object master else listed self.old.entries) }
    {
        if !is_object(object)
            || !Principal::User(master.owner).is_in_range()
            || self.master(object).is_some()
        {
            return false;
        }
        self.entries[object as usize] = Some(master);
        true
    }

    // Whether a user owns an object.
    pub fn is_owner(&self, user: u8, object: u8) -> bool
        ensures { Decides result (Owns (listed self.now.entries) user object) }
    {
        self.master(object)
            .is_some_and(|master| master.owner == user)
    }
}
