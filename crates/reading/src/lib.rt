// Records in an input of bytes: reading one at an offset, and writing one.
#![tactic(auto)]

ghost use Rattle.std.specs.Prelude.{◌≡◌, ◌+◌, ◌≤◌, length, MatchOption, MatchResult};
ghost use Rattle.reading.specs.Cut.{ReadingLaws};
ghost use Rattle.reading.specs.Records.{Reads, Refused};

pub mod fault;
mod limits;
pub mod record;
pub mod records;
pub mod writing;

use fault::ReadingFault;
use limits::{is_issuer, is_length};
use record::Record;

// The record at an offset of the input, or none at the input's end. Input and offset: the statements
// of the history read a record so.
#[tactic(auto, using(crate::proofs::Covering::reading_laws))]
pub fn read(input: &[u8], at: usize) -> Result<Option<Record<'_>>, ReadingFault>
    ensures answer { MatchResult result (λ o. MatchOption o (at ≡ length input.now) (λ x. Reads input.now at x)) (λ f. Refused input.now at f) }
    ensures laws { ReadingLaws }
{
    record_at(input, at)
}

// The questions in their order; an offset past the end has no four bytes left.
fn record_at(input: &[u8], at: usize) -> Result<Option<Record<'_>>, ReadingFault>
    ensures { MatchResult result (λ o. MatchOption o (at ≡ length input.now) (λ x. Reads input.now at x)) (λ f. Refused input.now at f) }
{
    let Some(rest) = input.get(at..) else {
        return Err(ReadingFault::Header(at));
    };
    let (issuer, length, tail) = match rest {
        [] => return Ok(None),
        [0x46, 0x52, issuer, length, tail @ ..] => (*issuer, *length, tail),
        [_, _, _, _, ..] => return Err(ReadingFault::Mark(at)),
        _ => return Err(ReadingFault::Header(at)),
    };
    if !is_issuer(issuer) {
        return Err(ReadingFault::Issuer(at));
    }
    if !is_length(length as usize) {
        return Err(ReadingFault::Length(at));
    }
    let Some(body) = tail.get(..length as usize) else {
        return Err(ReadingFault::Body(at));
    };
    let next = at + 4 + body.len();
    Ok(Some(Record { issuer, body, next }))
}
