use crate::token::Token;
use crate::word_at;

// The words of a body from an offset on, in their order.
#[derive(Clone, Debug, Drop)]
pub struct Words<'a> {
    pub body: &'a [u8],
    pub at: usize,
}

impl<'a> Iterator for Words<'a> {
    ghost use Rattle.std.specs.Iterator.{item_count};
    ghost use Rattle.words.specs.Iter.{GivesWord, words_left};

    type Item = Token<'a>;

    ghost next_gives = { GivesWord };

    ghost remaining = { item_count words_left };

    fn next(&mut self) -> Option<Token<'a>> {
        let token = word_at(self.body, self.at)?;
        self.at += token.text().len() + 1;
        Some(token)
    }
}
