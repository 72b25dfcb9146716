// Why a record has no sentence.
ghost use Rattle.std.specs.Prelude.{◌≡◌, Some};
ghost use Rattle.wording.specs.Faults.{number_of, layer_of, place_of, shown};
ghost use Rattle.wording.specs.declared.fault.WordingFault.TheVariants.{Reading as ReadingCase, Sentence as SentenceCase, Range as RangeCase};

use crate::ranges::LargeNumber;
use grammar::sentence::Misworded;
use reading::fault::{Layer, ReadingFault};
use std::error::Error;
use std::fmt;

#[derive(Clone, Copy, Debug, PartialEq, Eq)]
pub enum WordingFault {
    // no record can be read
    Reading(ReadingFault),
    // the body is no sentence: the offset in the body of the first word that no sentence has there,
    // or the body's length
    Sentence(usize),
    // a number is too large: the offset in the body of the first such word
    Range(usize),
}

impl From<ReadingFault> for WordingFault {
    ghost from_gives = { λ f r. r ≡ ReadingCase f };

    fn from(fault: ReadingFault) -> WordingFault {
        Self::Reading(fault)
    }
}

impl From<Misworded> for WordingFault {
    ghost from_gives = { λ f r. r ≡ SentenceCase f.at };

    fn from(fault: Misworded) -> WordingFault {
        Self::Sentence(fault.at)
    }
}

impl From<LargeNumber> for WordingFault {
    ghost from_gives = { λ f r. r ≡ RangeCase f.at };

    fn from(fault: LargeNumber) -> WordingFault {
        Self::Range(fault.at)
    }
}

// The same three questions as of a reading fault, and no trait of them: no code asks them of any
// fault whatever.
impl WordingFault {
    // The number of the question that was answered no.
    pub fn number(&self) -> u8
        ensures { result ≡ number_of self.now }
    {
        match self {
            WordingFault::Reading(fault) => fault.number(),
            WordingFault::Sentence(_) => 7,
            WordingFault::Range(_) => 8,
        }
    }

    // The part of the engine that refuses.
    pub fn layer(&self) -> Layer
        ensures { result ≡ layer_of self.now }
    {
        match self {
            WordingFault::Reading(fault) => fault.layer(),
            WordingFault::Sentence(_) | WordingFault::Range(_) => Layer::Wording,
        }
    }

    // The offset in the input for a reading fault, in the body for the others.
    pub fn place(&self) -> usize
        ensures { result ≡ place_of self.now }
    {
        match self {
            WordingFault::Reading(fault) => fault.place(),
            WordingFault::Sentence(at) | WordingFault::Range(at) => *at,
        }
    }
}

impl fmt::Display for WordingFault {
    ghost output = { λ fault. Some (shown fault) };

    fn fmt<W: fmt::Write>(&self, f: &mut fmt::Formatter<W>) -> fmt::Result {
        let number = self.number();
        let place = self.place();
        write!(f, "no {number} at {place}")
    }
}

impl Error for WordingFault {}
