// The records of an input, one after the other.
ghost use Rattle.std.specs.Prelude.{◌≡◌, ◌-◌, ◌≤◌, length};
ghost use Rattle.std.specs.Iterator.{at_most};

use crate::fault::ReadingFault;
use crate::read;
use crate::record::Record;

// What is left of an input: the bytes from an offset on.
#[derive(Debug, Drop)]
pub struct Records<'a> {
    pub input: &'a [u8],
    pub at: usize,
    ghost inside: { at ≤ length input.now },
}

impl<'a> Records<'a> {
    // All the records of an input.
    pub fn new(input: &'a [u8]) -> Records<'a>
        ensures same { result.input.now ≡ input.now }
        ensures first { result.at ≡ 0 }
    {
        Records { input, at: 0 }
    }
}

impl<'a> Iterator for Records<'a> {
    ghost use Rattle.reading.specs.Going.{Gives};

    type Item = Result<Record<'a>, ReadingFault>;

    ghost next_gives = { Gives };

    ghost remaining = { λ s. at_most (length s.input.now - s.at) };

    // The record that comes next, or the fault that takes all the rest.
    fn next(&mut self) -> Option<Result<Record<'a>, ReadingFault>> {
        let found = read(self.input, self.at).transpose()?;
        self.at = match &found {
            Ok(record) => record.next,
            Err(_) => self.input.len(),
        };
        Some(found)
    }
}
