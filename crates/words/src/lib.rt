// The words of a body, told apart.
#![tactic(auto)]

ghost use Rattle.std.specs.Prelude.{◌≡◌, ◌==◌, ◌<◌, ◌≤◌, [], length, position, slice_range, MatchOption};
ghost use Rattle.words.specs.Words.{digits, words_from, Numeral, PrincipalWord, ObjectWord, Tells, WordAt};

pub mod iter;
pub mod token;

use model::principal::Principal;
use token::Token;

// The number that a word writes: one digit, or two of which the first is not 0.
pub fn number(word: &[u8]) -> Option<u8>
    ensures { MatchOption result (Numeral word.now → ⊥) (λ n. (n ≤ 99) × (word.now ≡ digits n)) }
{
    match word {
        [b @ b'0'..=b'9'] => Some(*b - b'0'),
        [a @ b'1'..=b'9', b @ b'0'..=b'9'] => Some((*a - b'0') * 10 + (*b - b'0')),
        _ => None,
    }
}

// What a word names that is the letter u, r or o and a number; none for any other word.
fn named<'a>(text: &'a [u8], at: usize) -> Option<Token<'a>>
    ensures { MatchOption result ((PrincipalWord text.now → ⊥) × (ObjectWord text.now → ⊥)) (Tells text.now at) }
{
    let (first, rest) = text.split_first()?;
    let n = number(rest)?;
    match *first as char {
        'u' => Some(Token::Principal {
            text,
            at,
            principal: Principal::User(n),
        }),
        'r' => Some(Token::Principal {
            text,
            at,
            principal: Principal::Role(n),
        }),
        'o' => Some(Token::Object {
            text,
            at,
            object: n,
        }),
        _ => None,
    }
}

// What a word is.
pub fn classify<'a>(text: &'a [u8], at: usize) -> Token<'a>
    ensures { Tells text.now at result }
{
    if let Some(token) = named(text, at) {
        return token;
    }
    if let Some(number) = number(text) {
        return Token::Number { text, at, number };
    }
    Token::Keyword { text, at }
}

// Where the first space stands.
fn space(rest: &[u8]) -> Option<usize>
    ensures { result ≡ position (λ b. b == 32) rest.now }
{
    rest.iter().position(|b| *b == b' ')
}

// What stands from an offset on, or nothing past the end. Body and offset: the one step of the
// cursor `Words`.
fn rest_from(body: &[u8], at: usize) -> Option<&[u8]>
    ensures { MatchOption result (length body.now < at) (λ x. (at ≤ length body.now) × (x.now ≡ slice_range body.now at (length body.now))) }
{
    body.get(at..)
}

// The word that begins at an offset, or none past the end.
// At the end itself stands the empty word: the body is empty or its last byte is a space.
pub fn word_at<'a>(body: &'a [u8], at: usize) -> Option<Token<'a>>
    ensures { MatchOption result (words_from body.now at ≡ []) (λ t. WordAt body.now at t) }
{
    let rest = rest_from(body, at)?;
    let n = space(rest).unwrap_or(rest.len());
    Some(classify(&rest[..n], at))
}
