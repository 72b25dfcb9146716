// A role graph as a list of links, which are the first `len` records of a lent slice: it allocates
// nothing.
ghost use Rattle.std.specs.Prelude.{◌≡◌, ℕ, ◌<◌, ◌≤◌, true, length, is_some, IfSome, nat_le};
ghost use Rattle.model.specs.declared.principal.Principal.TheVariants.{Role};
ghost use Rattle.graphs.specs.Levels.{Kept};
ghost use Rattle.graphs.specs.Records.{held, at_place, Distinct};

use crate::levels::Levels;
use crate::link::{LINKS, Link, has_room, is_one};
use model::graph::Graph;
use model::principal::Principal;

#[derive(Drop)]
pub struct LinkList<'a> {
    levels: Levels,
    links: &'a mut [Link],
    len: usize,
    ghost fits: { len ≤ length links.now },
    ghost kept: { Kept levels.of_roles (held links.now len) len },
    ghost distinct: { Distinct links.now len },
}

impl<'a> LinkList<'a> {
    ghost use Rattle.model.specs.Graphs.{new_graph, takes_link, with_link, without_link, Chain};
    ghost use Rattle.graphs.specs.Meanings.{list_graph, list_full};

    // A graph with no levels and no links, in the memory given.
    pub fn new(memory: &'a mut [Link]) -> LinkList<'a>
        ensures empty { list_graph result ≡ new_graph }
        ensures memory { list_full result ≡ nat_le 256 (length memory.old) }
    {
        LinkList {
            levels: Levels::new(),
            links: memory,
            len: 0,
        }
    }

    fn takes_link(&self, link: Link) -> bool
        ensures { result ≡ takes_link (list_full self.now) (list_graph self.now) link.upper link.lower }
    {
        self.has_full_memory()
            && self.levels.falls(link)
            && self.position(link).is_none()
            && has_room(self.len)
    }

    fn put(&mut self, link: Link)
        requires { takes_link (list_full self.old) (list_graph self.old) link.upper link.lower ≡ true }
        ensures after { list_graph self.new ≡ with_link (list_graph self.old) link.upper link.lower }
        ensures memory { list_full self.new ≡ list_full self.old }
    {
        self.links[self.len] = link;
        self.len += 1;
    }

    // Strikes out a record: the last one takes its place.
    fn take_out(&mut self, place: usize)
        requires { place < self.old.len }
        ensures after { list_graph self.new ≡ without_link (list_graph self.old) (at_place self.old.links.now place).upper (at_place self.old.links.now place).lower }
        ensures memory { list_full self.new ≡ list_full self.old }
    {
        let last = self.len - 1;
        self.links[place] = self.links[last];
        self.len = last;
    }

    // The place of the link, if it stands.
    fn position(&self, link: Link) -> Option<usize>
        ensures stands { is_some result ≡ (list_graph self.now).linked link.upper link.lower }
        ensures place { IfSome result (λ i. (i < self.now.len) × (at_place self.now.links.now i ≡ link)) }
    {
        self.links[..self.len].iter().position(|held| *held == link)
    }

    // Whether a chain leads on through one of the first `left` links, or has arrived. By a number and
    // no iterator: the measure counts the links left to try.
    #[cycle(follow_follow_link)]
    fn follow(&self, from: Principal, to: Principal, left: usize) -> bool
        requires { left ≤ self.now.len }
        ensures sound { result ≡ true → Chain (list_graph self.now).linked from to }
        ensures itself { from ≡ to → result ≡ true }
        ensures complete { (k : ℕ) → k < left → (at_place self.now.links.now k).upper ≡ from → Chain (list_graph self.now).linked (Role (at_place self.now.links.now k).lower) to → result ≡ true }
    {
        if is_one(from, to) {
            return true;
        }
        if left == 0 {
            return false;
        }
        let place = left - 1;
        let link = self.links[place];
        if is_one(link.upper, from) && self.follow_link(place, to) {
            return true;
        }
        self.follow(from, to, place)
    }

    // Whether a chain leads on from the lower end of a link: all links are tried there.
    #[cycle(follow_follow_link)]
    fn follow_link(&self, place: usize, to: Principal) -> bool
        requires { place < self.now.len }
        ensures sound { result ≡ true → Chain (list_graph self.now).linked (Role (at_place self.now.links.now place).lower) to }
        ensures complete { Chain (list_graph self.now).linked (Role (at_place self.now.links.now place).lower) to → result ≡ true }
    {
        self.follow(Principal::Role(self.links[place].lower), to, self.len)
    }
}

impl<'a> Graph for LinkList<'a> {
    ghost use Rattle.graphs.specs.Meanings.{list_graph, list_full, list_sound};

    ghost meaning = { list_graph };

    ghost full = { list_full };

    ghost sound = { list_sound };

    fn give_level(&mut self, role: u8, level: u8) -> bool {
        self.levels.give(role, level)
    }

    fn level(&self, principal: Principal) -> Option<u8> {
        self.levels.of(principal)
    }

    fn add(&mut self, upper: Principal, lower: u8) -> bool {
        let link = Link::new(upper, lower);
        let takes = self.takes_link(link);
        if takes {
            self.put(link);
        }
        takes
    }

    fn cut(&mut self, upper: Principal, lower: u8) -> bool {
        let Some(place) = self.position(Link::new(upper, lower)) else {
            return false;
        };
        self.take_out(place);
        true
    }

    fn linked(&self, upper: Principal, lower: u8) -> bool {
        self.position(Link::new(upper, lower)).is_some()
    }

    fn count(&self) -> usize {
        self.len
    }

    fn reaches(&self, from: Principal, to: Principal) -> bool {
        if !from.is_in_range() || !to.is_in_range() {
            return false;
        }
        self.follow(from, to, self.len)
    }

    fn has_full_memory(&self) -> bool {
        self.links.len() >= LINKS
    }
}
