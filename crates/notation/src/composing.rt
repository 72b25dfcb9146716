// A file of records from the lines that state them.
ghost use Rattle.std.specs.Prelude.{◌≡◌, MatchResult};
ghost use Rattle.notation.specs.Adding.{Taken, NotTaken};
ghost use Rattle.notation.specs.Results.{Composed};
ghost use Rattle.notation.specs.Refusing.{Uncomposed};
ghost use Rattle.notation.specs.declared.composing.ComposeFault.TheVariants.{Memory};
ghost use Rattle.notation.specs.declared.line.LineFault.TheVariants.{Unstated};

use crate::bodies::Bodies;
use crate::line::{LineFault, add_line};
use crate::split::{ends_line, is_skipped, statement};
use std::alloc::{AllocError, Global};

// Why a text was not composed.
#[derive(Clone, Copy, Debug, PartialEq, Eq)]
pub enum ComposeFault {
    // the line of this number, counted from 1, states no record
    Line(usize),
    // there is no memory for the records
    Memory,
}

// For the `?` of a caller that needs memory of its own.
impl From<AllocError> for ComposeFault {
    ghost from_gives = { λ _ r. r ≡ Memory };

    fn from(_e: AllocError) -> ComposeFault {
        ComposeFault::Memory
    }
}

// The records that the lines of a text state, one after the other.
pub fn compose(heap: Global, text: &[u8], bodies: Bodies) -> Result<Vec<u8>, ComposeFault>
    ensures { MatchResult result (λ v. Composed bodies text.now v.items) (λ f. Uncomposed bodies text.now f) }
{
    let mut out = Vec::new(heap);
    for (before, line) in text.split(ends_line).enumerate() {
        match take_line(&mut out, statement(line), bodies) {
            Ok(()) => {}
            Err(LineFault::Unstated) => return Err(ComposeFault::Line(before + 1)),
            Err(LineFault::Memory) => return Err(ComposeFault::Memory),
        }
    }
    Ok(out)
}

// Adds what a line states, which is nothing where it is skipped.
fn take_line(out: &mut Vec<u8>, line: &[u8], bodies: Bodies) -> Result<(), LineFault>
    ensures { MatchResult result (λ _. Taken bodies line.now out.old.items out.new.items) (λ f. f ≡ Unstated → NotTaken bodies line.now) }
{
    if is_skipped(line) {
        return Ok(());
    }
    add_line(out, line, bodies)
}
