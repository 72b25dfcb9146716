// Why no record can be read.
ghost use Rattle.std.specs.Prelude.{◌≡◌, Some};
ghost use Rattle.reading.specs.Faults.{number_of, layer_of, place_of, told};

use std::error::Error;
use std::fmt;

// The part of the engine that refuses a record.
#[derive(Clone, Copy, Debug, PartialEq, Eq)]
pub enum Layer {
    Reading,
    Wording,
    Standing,
}

// What is wrong with the bytes at an offset; each case holds that offset.
#[derive(Clone, Copy, Debug, PartialEq, Eq)]
pub enum ReadingFault {
    // fewer than four bytes are left
    Header(usize),
    // they do not begin with the mark
    Mark(usize),
    // there is no such user
    Issuer(usize),
    // no body has such a length
    Length(usize),
    // the body is torn
    Body(usize),
}

impl ReadingFault {
    // The number of the question that was answered no.
    pub fn number(&self) -> u8
        ensures { result ≡ number_of self.now }
    {
        match self {
            ReadingFault::Header(_) => 2,
            ReadingFault::Mark(_) => 3,
            ReadingFault::Issuer(_) => 4,
            ReadingFault::Length(_) => 5,
            ReadingFault::Body(_) => 6,
        }
    }

    // Reading refuses.
    pub fn layer(&self) -> Layer
        ensures { result ≡ layer_of self.now }
    {
        Layer::Reading
    }

    // The record's offset in its input.
    pub fn place(&self) -> usize
        ensures { result ≡ place_of self.now }
    {
        match self {
            ReadingFault::Header(at)
            | ReadingFault::Mark(at)
            | ReadingFault::Issuer(at)
            | ReadingFault::Length(at)
            | ReadingFault::Body(at) => *at,
        }
    }
}

impl fmt::Display for ReadingFault {
    ghost output = { λ f. Some (told (number_of f) (place_of f)) };

    fn fmt<W: fmt::Write>(&self, f: &mut fmt::Formatter<W>) -> fmt::Result {
        let number = self.number();
        let place = self.place();
        write!(f, "no {number} at {place}")
    }
}

impl Error for ReadingFault {}
