// Whether the numbers of a body's words are in range.
ghost use Rattle.std.specs.Prelude.{MatchBool, MatchResult};
ghost use Rattle.std.specs.List.{AllByRecursion};
ghost use Rattle.words.specs.Words.{text, place, words, Tells};
ghost use Rattle.wording.specs.Ranges.{Exceeds, Fine, TooLarge};

use model::object::is_object;
use model::principal::is_role_level;
use words::iter::Words;
use words::token::Token;

// That a word's number is too large, and the word's offset in its body. Not the type of a misworded
// body's place: `?` tells 7 from 8 by the type.
#[derive(Clone, Copy)]
pub(crate) struct LargeNumber {
    pub at: usize,
}

// Whether a word's number is too large for what the word names.
fn is_large(token: Token) -> bool
    requires { Tells (text token) (place token) token }
    ensures { MatchBool result (TooLarge (text token.entry)) (Fine (text token.entry)) }
{
    match token {
        Token::Keyword { .. } => false,
        Token::Principal { principal, .. } => !principal.is_in_range(),
        Token::Object { object, .. } => !is_object(object),
        Token::Number { number, .. } => !is_role_level(number),
    }
}

// That no number is too large, or the place of the first word whose number is.
pub(crate) fn ranges(body: &[u8]) -> Result<(), LargeNumber>
    ensures { MatchResult result (λ _. AllByRecursion Fine (words body.now)) (λ e. Exceeds body.now e.at) }
{
    for token in (Words { body, at: 0 }) {
        if is_large(token) {
            return Err(LargeNumber { at: token.at() });
        }
    }
    Ok(())
}
