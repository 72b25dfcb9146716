// One byte of a body as text: itself, or an escape.
ghost use Rattle.std.specs.Prelude.{◌≡◌, ℕ, ◌+◌, ◌*◌, ◌/◌, ◌%◌, ◌<◌, false, List, ◌++◌, MatchOption, ◌≢◌};
ghost use Rattle.notation.specs.Shown.{plain, hex, shown, Byte};

// Whether a byte stands for itself.
pub(crate) fn is_plain(b: u8) -> bool
    ensures { result ≡ plain b }
{
    32 <= b && b <= 126 && b != b'\\'
}

// The digit of a value below sixteen.
pub(crate) fn hex_digit(d: u8) -> u8
    requires { d < 16 }
    ensures { (result ≡ hex d) × (result < 128) }
{
    if d < 10 { b'0' + d } else { b'A' - 10 + d }
}

// The value of a digit, if it is one.
fn hex_value(c: u8) -> Option<u8>
    ensures { MatchOption result ((d : ℕ) → d < 16 → hex d ≢ c) (λ d. (d < 16) × (hex d ≡ c)) }
{
    match c {
        b'0'..=b'9' => Some(c - b'0'),
        b'A'..=b'F' => Some(c - b'A' + 10),
        _ => None,
    }
}

// The byte that two digits stand for.
fn from_digits(high: u8, low: u8) -> u8
    requires { (high < 16) × (low < 16) }
    ensures { result ≡ 16 * high + low }
{
    high * 16 + low
}

// The byte that a text shows first, and the text after it; none where it shows none.
pub(crate) fn first_byte(text: &[u8]) -> Option<(u8, &[u8])>
    ensures { MatchOption result ((b : ℕ) (rest : List ℕ) → Byte b → text.now ≢ shown b ++ rest) (λ x. Byte x.0 × (text.now ≡ shown x.0 ++ x.1.now)) }
{
    match text {
        [b'\\', b'x', high, low, rest @ ..] => Some((escaped_byte(*high, *low)?, rest)),
        [b, rest @ ..] if is_plain(*b) => Some((*b, rest)),
        _ => None,
    }
}

// The byte whose escape ends in these digits; none for one that stands for itself, so that each body has one text.
fn escaped_byte(high: u8, low: u8) -> Option<u8>
    ensures { MatchOption result ((b : ℕ) → Byte b → plain b ≡ false → hex (b / 16) ≡ high → hex (b % 16) ≢ low) (λ b. Byte b × (plain b ≡ false) × (hex (b / 16) ≡ high) × (hex (b % 16) ≡ low)) }
{
    let b = from_digits(hex_value(high)?, hex_value(low)?);
    if is_plain(b) { None } else { Some(b) }
}
