// The role graph, as those above it see it.
ghost use Rattle.std.specs.Prelude.{◌≡◌, Bool, true, if◌then◌else◌, Decides};
ghost use Rattle.model.specs.LinkCount.{link_count};
ghost use Rattle.model.specs.Graphs.{RoleGraph, Sound, Reaches, Above, level_of, falls, takes_level, takes_link, with_level, with_link, without_link};
ghost use Rattle.model.specs.declared.principal.Principal.TheVariants.{Role};

use crate::principal::Principal;

pub trait Graph {
    ghost meaning: { Self → RoleGraph };

    // Whether the graph has its full memory.
    ghost full: { Self → Bool };

    // Gives a level to a role that has none.
    fn give_level(&mut self, role: u8, level: u8) -> bool
        ensures answer { result ≡ takes_level (meaning self.old) role level }
        ensures after { meaning self.new ≡ (if takes_level (meaning self.old) role level then with_level (meaning self.old) role level else meaning self.old) }
        ensures memory { full self.new ≡ full self.old };

    // The level of a principal, if it exists.
    fn level(&self, principal: Principal) -> Option<u8>
        ensures { result ≡ level_of (meaning self.now).level principal };

    // Adds the link from a principal to a role below it. The two ends stand apart in each call: who
    // asks has them apart, as fields of a sentence or as a role that is tried.
    fn add(&mut self, upper: Principal, lower: u8) -> bool
        ensures answer { result ≡ takes_link (full self.old) (meaning self.old) upper lower }
        ensures after { meaning self.new ≡ (if takes_link (full self.old) (meaning self.old) upper lower then with_link (meaning self.old) upper lower else meaning self.old) }
        ensures memory { full self.new ≡ full self.old };

    // Cuts a link; one that is absent stays so.
    fn cut(&mut self, upper: Principal, lower: u8) -> bool
        ensures answer { result ≡ (meaning self.old).linked upper lower }
        ensures after { meaning self.new ≡ (if (meaning self.old).linked upper lower then without_link (meaning self.old) upper lower else meaning self.old) }
        ensures memory { full self.new ≡ full self.old };

    // Whether the link stands.
    fn linked(&self, upper: Principal, lower: u8) -> bool
        ensures { result ≡ (meaning self.now).linked upper lower };

    // How many links stand.
    fn count(&self) -> usize
        ensures { result ≡ link_count (meaning self.now).linked };

    // Whether the principals are equal, or a chain of links leads from the first to the second.
    fn reaches(&self, from: Principal, to: Principal) -> bool
        ensures { Decides result (Reaches (meaning self.now) from to) };

    fn has_full_memory(&self) -> bool
        ensures { result ≡ full self.now };

    // Whether the first role is above the second: its level is then the greater, so no role is
    // above itself, nor two above each other.
    fn is_above(&self, upper: u8, lower: u8) -> bool
        ensures decides { Decides result (Above (meaning self.now) upper lower) }
        ensures level { result ≡ true → falls (meaning self.now).level (Role upper) lower ≡ true }
    {
        if upper == lower {
            return false;
        }
        self.reaches(Principal::Role(upper), Principal::Role(lower))
    }

    // What every graph keeps.
    ghost sound: { (s : Self) → Sound (meaning s) };
}
