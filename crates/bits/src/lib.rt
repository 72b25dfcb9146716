// One bit of a 32-bit word, read and written.
#![tactic(auto)]

ghost use Rattle.std.specs.Prelude.{◌≡◌, ℕ, ◌/◌, ◌^◌, ◌<◌, ◌≤◌, ◌==◌, if◌then◌else◌, ◌≢◌};
ghost use Rattle.bits.specs.Bit.{bit};

pub const WIDTH: u32 = 32;

// Bit k of x, 0 or 1; it is 0 past the width. A number, since digits of several words are added up
// to one code.
pub fn digit(x: u32, k: u32) -> u32
    ensures value { result ≡ bit x k }
    ensures binary { result < 2 }
{
    if k < WIDTH { shifted(x, k) & 1 } else { 0 }
}

// Whether bit k of x is set; none is past the width.
pub fn is_set(x: u32, k: u32) -> bool
    ensures { result ≡ (bit x k == 1) }
{
    digit(x, k) == 1
}

fn shifted(x: u32, k: u32) -> u32
    requires { k < 32 }
    ensures { result ≡ x / 2 ^ k }
{
    x >> k
}

// x with bit k set or cleared; x itself where k is past the width.
pub fn with_bit(x: u32, k: u32, on: bool) -> u32
    ensures same { k < 32 → bit result k ≡ (if on then 1 else 0) }
    ensures others { (j : ℕ) → (j ≢ k) → bit result j ≡ bit x j }
    ensures outside { 32 ≤ k → result ≡ x }
{
    if k >= WIDTH {
        return x;
    }
    let mask = 1u32 << k;
    if on { x | mask } else { x & !mask }
}
