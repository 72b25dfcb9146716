// The line of a record: read, and added to a file.
ghost use Rattle.std.specs.Prelude.{◌≡◌, ℕ, ◌≤◌, List, ◌++◌, take, ◌↔◌, IsTrue, MatchOption, MatchResult, ◌≢◌};
ghost use Rattle.std.specs.List.{flat_map, AllByRecursion};
ghost use Rattle.notation.specs.Shown.{head, shown, Byte, Passes};
ghost use Rattle.notation.specs.Adding.{Added, NotAdded, of_write};
ghost use Rattle.notation.specs.declared.line.LineFault.TheVariants.{Unstated, Memory};

use crate::bodies::Bodies;
use crate::escape::first_byte;
use crate::split::first_of;
use reading::writing::{WriteFault, write};
use std::alloc::{AllocFailed, Global};
use wording::sentence_of;
use words::number;

// Why a line adds no record.
#[derive(Clone, Copy, Debug, PartialEq, Eq)]
pub(crate) enum LineFault {
    // it states none that passes
    Unstated,
    // there is no memory for the record
    Memory,
}

impl<T: Drop> From<AllocFailed<T>> for LineFault {
    ghost from_gives = { λ _ r. r ≡ Memory };

    fn from(_e: AllocFailed<T>) -> LineFault {
        LineFault::Memory
    }
}

impl From<WriteFault> for LineFault {
    ghost from_gives = { λ f r. r ≡ of_write f };

    fn from(fault: WriteFault) -> LineFault {
        match fault {
            WriteFault::Issuer | WriteFault::Length => LineFault::Unstated,
            WriteFault::Memory => LineFault::Memory,
        }
    }
}

// Where the space behind the number of a user would stand, and no further: a line without one is not
// gone through.
fn front(rest: &[u8]) -> &[u8]
    ensures { result.now ≡ take 3 rest.now }
{
    rest.get(..3).unwrap_or(rest)
}

// The issuer that a line begins with, and the text after it.
fn issuer_of(line: &[u8]) -> Option<(u8, &[u8])>
    ensures { MatchOption result ((n : ℕ) (rest : List ℕ) → n ≤ 63 → line.now ≢ head n ++ rest) (λ x. (x.0 ≤ 63) × (line.now ≡ head x.0 ++ x.1.now)) }
{
    let rest = line.strip_prefix(b"u")?;
    let space = first_of(front(rest), b' ')?;
    let issuer = number(&rest[..space])?;
    // the limit once more: `number` goes to 99, and the one of reading is its own
    if issuer > 63 {
        return None;
    }
    Some((issuer, &rest[space + 1..]))
}

// The body that a text shows.
fn body_of(heap: Global, text: &[u8]) -> Result<Vec<u8>, LineFault>
    ensures { MatchResult result (λ v. AllByRecursion Byte v.items × (text.now ≡ flat_map shown v.items)) (λ f. f ≡ Unstated → (body : List ℕ) → AllByRecursion Byte body → text.now ≢ flat_map shown body) }
{
    let mut body = Vec::new(heap);
    let mut rest = text;
    while !rest.is_empty() {
        let (b, after) = first_byte(rest).ok_or(LineFault::Unstated)?;
        body.push(b)?;
        rest = after;
    }
    Ok(body)
}

// Adds the record that a line states; a refusal leaves all as it was.
pub(crate) fn add_line(out: &mut Vec<u8>, line: &[u8], bodies: Bodies) -> Result<(), LineFault>
    ensures { MatchResult result (λ _. Added bodies line.now out.old.items out.new.items) (λ f. (f ≡ Unstated → NotAdded bodies line.now) × (out.new.items ≡ out.old.items)) }
{
    let (issuer, text) = issuer_of(line).ok_or(LineFault::Unstated)?;
    let body = body_of(*out.allocator(), text)?;
    if !passes(bodies, &body) {
        return Err(LineFault::Unstated);
    }
    write(out, issuer, &body)?;
    Ok(())
}

// Whether a body may be composed.
fn passes(bodies: Bodies, body: &[u8]) -> bool
    ensures { IsTrue result ↔ Passes bodies body.now }
{
    match bodies {
        Bodies::Any => true,
        Bodies::Sentences => sentence_of(body).is_ok(),
    }
}
