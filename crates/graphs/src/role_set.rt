// Sets of roles. Crate `bits` reads and writes words of 32 bits: a trait over both widths would only
// say each of these expressions once more in each of its two impls.
ghost use Rattle.std.specs.Prelude.{◌≡◌, ℕ, ◌<◌, not, ◌&&◌, ◌||◌, if◌then◌else◌, ◌==◌};
ghost use Rattle.graphs.specs.Rows.{bit_at};

use std::marker::Model;

// A set of roles: bit r of the word is role r.
#[derive(Clone, Copy)]
pub(crate) struct RoleSet {
    bits: u64,
}

impl Model for RoleSet {
    ghost use Rattle.std.specs.Prelude.{ℕ};

    ghost Value = { ℕ };

    ghost view = { λ s. s.bits };

    ghost inverse = { λ n. record { bits = n } };
}

impl RoleSet {
    // The set of no roles.
    pub(crate) fn new() -> RoleSet
        ensures { result ≡ 0 }
    {
        RoleSet { bits: 0 }
    }

    pub(crate) fn contains(self, role: u8) -> bool
        requires { role < 64 }
        ensures { result ≡ bit_at self role }
    {
        (self.bits >> role) & 1 == 1
    }

    pub(crate) fn with(self, role: u8) -> RoleSet
        requires { role < 64 }
        ensures { (j : ℕ) → bit_at result j ≡ (role == j) || bit_at self j }
    {
        RoleSet {
            bits: self.bits | 1 << role,
        }
    }

    pub(crate) fn without(self, role: u8) -> RoleSet
        requires { role < 64 }
        ensures { (j : ℕ) → j < 64 → bit_at result j ≡ not (role == j) && bit_at self j }
    {
        RoleSet {
            bits: self.bits & !(1 << role),
        }
    }

    pub(crate) fn union(self, other: RoleSet) -> RoleSet
        ensures { (j : ℕ) → bit_at result j ≡ bit_at other j || bit_at self j }
    {
        RoleSet {
            bits: self.bits | other.bits,
        }
    }

    // The set, or none of its roles.
    pub(crate) fn only_if(self, taken: bool) -> RoleSet
        ensures { result ≡ (if taken then self else 0) }
    {
        if taken { self } else { RoleSet::new() }
    }
}
