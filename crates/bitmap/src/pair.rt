ghost use Rattle.std.specs.Prelude.{◌≡◌, ◌<◌, ◌&&◌, IfSome, is_some};
ghost use Rattle.model.specs.Principals.{in_range};
ghost use Rattle.model.specs.Places.{number as number_of};

use model::principal::Principal;

// The numbers of a granter and a grantee.
#[derive(Clone, Copy)]
pub struct Pair {
    pub(crate) granter: u8,
    pub(crate) grantee: u8,
    ghost gives: { granter < 128 },
    ghost gets: { grantee < 128 },
}

impl Pair {
    // The pair of two principals, if there can be both.
    pub(crate) fn of(granter: Principal, grantee: Principal) -> Option<Pair>
        ensures in_range { is_some result ≡ (in_range granter && in_range grantee) }
        ensures granter { IfSome result (λ pair. pair.granter ≡ number_of granter) }
        ensures grantee { IfSome result (λ pair. pair.grantee ≡ number_of grantee) }
    {
        Some(Pair {
            granter: granter.number()?,
            grantee: grantee.number()?,
        })
    }
}
