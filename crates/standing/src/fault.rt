// Why a record is refused.
ghost use Rattle.std.specs.Prelude.{◌≡◌};
ghost use Rattle.standing.specs.Faults.{number_of, layer_of, place_of};
ghost use Rattle.standing.specs.declared.fault.StandingFault.TheVariants.{Wording as WordingCase};

use reading::fault::Layer;
use wording::fault::WordingFault;

#[derive(Clone, Copy, Debug, PartialEq, Eq)]
pub enum StandingFault {
    // the record cannot be read, or its body is refused
    Wording(WordingFault),
    // store or graph lack memory
    Memory,
    // only u0 makes roles and objects, links and cuts
    Registrar,
    // a role or an object that is named does not exist
    Unknown,
    // the role or the object that is to be made exists
    Taken,
    // the level does not fall along the link
    Level,
    // the link to add stands, or the one to cut does not
    Link,
    // the scale has no state for the command
    State,
    // the type of the object does not define the privilege
    Privilege,
    // nobody as whom the issuer could give
    Granter,
    // no room for the cell or the link
    Room,
}

impl From<WordingFault> for StandingFault {
    ghost from_gives = { λ f r. r ≡ WordingCase f };

    fn from(fault: WordingFault) -> StandingFault {
        Self::Wording(fault)
    }
}

impl StandingFault {
    // The number of the question that was answered no.
    pub fn number(&self) -> u8
        ensures { result ≡ number_of self.now }
    {
        match self {
            StandingFault::Wording(fault) => fault.number(),
            StandingFault::Memory => 1,
            StandingFault::Registrar => 9,
            StandingFault::Unknown => 10,
            StandingFault::Taken => 11,
            StandingFault::Level => 12,
            StandingFault::Link => 13,
            StandingFault::State => 14,
            StandingFault::Privilege => 15,
            StandingFault::Granter => 16,
            StandingFault::Room => 17,
        }
    }

    // The part of the engine that refuses.
    pub fn layer(&self) -> Layer
        ensures { result ≡ layer_of self.now }
    {
        match self {
            StandingFault::Wording(fault) => fault.layer(),
            _ => Layer::Standing,
        }
    }

    // The place that the table of refusals (docs/REFUSALS.md) gives each: the offset that a fault of reading or wording
    // has, and 0 for those of standing.
    pub fn place(&self) -> usize
        ensures { result ≡ place_of self.now }
    {
        match self {
            StandingFault::Wording(fault) => fault.place(),
            _ => 0,
        }
    }
}
