ghost use Rattle.std.specs.Prelude.{◌≡◌};
ghost use Rattle.model.specs.Privileges.{mask as mask_of, defines as defines_of};

use crate::privilege::Privilege;

// The type of a master, which says which privileges it defines.
#[derive(Clone, Copy, Debug, PartialEq, Eq)]
pub enum Kind {
    Library,
    Face,
    Hints,
    Bitmaps,
}

impl Kind {
    // The privileges that the type defines, as bits.
    pub fn mask(self) -> u8
        ensures { result ≡ mask_of self }
    {
        match self {
            Kind::Library => 0xC1,
            Kind::Face => 0xFB,
            Kind::Hints => 0x8D,
            Kind::Bitmaps => 0xB1,
        }
    }

    pub fn defines(self, privilege: Privilege) -> bool
        ensures { result ≡ defines_of self privilege }
    {
        (self.mask() >> privilege.bit()) % 2 == 1
    }
}
