// Writing a record.
ghost use Rattle.std.specs.Prelude.{◌≡◌, ◌<◌, ◌≤◌, [], ◌∷◌, ◌++◌, length, MatchResult};
ghost use Rattle.reading.specs.Records.{Frame};
ghost use Rattle.reading.specs.Cut.{Sound, bytes_of};
ghost use Rattle.reading.specs.Writing.{Unwritable, Writable, Unfit};
ghost use Rattle.reading.specs.declared.writing.WriteFault.TheVariants.{Memory};

use crate::limits::{is_issuer, is_length};
use std::alloc::AllocError;

// Why a record was not written.
#[derive(Clone, Copy, Debug, PartialEq, Eq)]
pub enum WriteFault {
    // there is no such user
    Issuer,
    // no body has such a length
    Length,
    // there is no memory for it
    Memory,
}

impl From<AllocError> for WriteFault {
    ghost from_gives = { λ _ r. r ≡ Memory };

    fn from(_e: AllocError) -> WriteFault {
        WriteFault::Memory
    }
}

// Appends the record of an issuer and a body; what cannot be written leaves all as it was.
pub fn write(out: &mut Vec<u8>, issuer: u8, body: &[u8]) -> Result<(), WriteFault>
    ensures written { MatchResult result (λ _. Sound (record { issuer = issuer; body = body.now }) × (out.new.items ≡ out.old.items ++ bytes_of (record { issuer = issuer; body = body.now }))) (λ f. Unwritable issuer body.now f × (out.new.items ≡ out.old.items)) }
{
    let length = body.len();
    judge(issuer, length)?;
    // room for all of it first, so that want of memory leaves no half of a record
    out.reserve(4 + length)?;
    out.extend_from_slice(&header(issuer, length as u8))?;
    out.extend_from_slice(body)?;
    Ok(())
}

// Whether a record may have such an issuer and such a length.
fn judge(issuer: u8, length: usize) -> Result<(), WriteFault>
    ensures { MatchResult result (λ _. Writable issuer length) (λ f. Unfit issuer length f) }
{
    if !is_issuer(issuer) {
        return Err(WriteFault::Issuer);
    }
    if !is_length(length) {
        return Err(WriteFault::Length);
    }
    Ok(())
}

// The four bytes before a body. The mark is spelled here and in the pattern of `record_at`: a name for each of its two
// bytes is no plainer than the bytes.
fn header(issuer: u8, length: u8) -> [u8; 4]
    ensures { result ≡ 0x46 ∷ (0x52 ∷ (issuer ∷ (length ∷ []))) }
{
    [0x46, 0x52, issuer, length]
}
