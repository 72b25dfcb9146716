// What the bytes of a record may be, asked where one is read and where one is written.
ghost use Rattle.std.specs.Prelude.{◌≤◌, ◌↔◌, IsTrue};

// Whether there is such a user.
pub(crate) fn is_issuer(issuer: u8) -> bool
    ensures { IsTrue result ↔ issuer ≤ 63 }
{
    issuer <= 63
}

// Whether a body may have such a length.
pub(crate) fn is_length(length: usize) -> bool
    ensures { IsTrue result ↔ (1 ≤ length) × (length ≤ 64) }
{
    1 <= length && length <= 64
}
