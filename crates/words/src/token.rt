ghost use Rattle.std.specs.Prelude.{◌≡◌};
ghost use Rattle.words.specs.Words.{text as text_of, place as place_of};

use model::principal::Principal;

// A word of a body: its bytes there, its offset there, and what it names.
#[derive(Clone, Copy, Debug)]
pub enum Token<'a> {
    // any word that is none of the others, the empty one too
    Keyword {
        text: &'a [u8],
        at: usize,
    },
    // `u` or `r` and a number
    Principal {
        text: &'a [u8],
        at: usize,
        principal: Principal,
    },
    // `o` and a number
    Object {
        text: &'a [u8],
        at: usize,
        object: u8,
    },
    Number {
        text: &'a [u8],
        at: usize,
        number: u8,
    },
}

impl<'a> Token<'a> {
    // The word's bytes.
    pub fn text(&self) -> &'a [u8]
        ensures { result.now ≡ text_of self.now }
    {
        match *self {
            Token::Keyword { text, .. }
            | Token::Principal { text, .. }
            | Token::Object { text, .. }
            | Token::Number { text, .. } => text,
        }
    }

    // The word's offset in its body.
    pub fn at(&self) -> usize
        ensures { result ≡ place_of self.now }
    {
        match *self {
            Token::Keyword { at, .. }
            | Token::Principal { at, .. }
            | Token::Object { at, .. }
            | Token::Number { at, .. } => at,
        }
    }
}
