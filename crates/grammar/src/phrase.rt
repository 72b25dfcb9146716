ghost use Rattle.std.specs.Prelude.{◌≡◌, [], length, if◌then◌else◌, MatchResult};
ghost use Rattle.words.specs.Words.{text, WordAt};
ghost use Rattle.words.specs.Iter.{words_left};
ghost use Rattle.grammar.specs.declared.sentence.Command.{Command};
ghost use Rattle.grammar.specs.Sentences.{first, word as a_word};

use crate::keyword::value_of;
use crate::parts::Part;
use crate::sentence::{Command, Misworded};
use words::iter::Words;
use words::token::Token;
use words::word_at;

// The words of a body that are still to be read. After an error it is read no further.
#[derive(Drop)]
pub(crate) struct Phrase<'a> {
    pub words: Words<'a>,
}

impl<'a> Phrase<'a> {
    ghost use Rattle.grammar.specs.Steps.{Takes, LacksAt, StraysAt, ErrsAt, texts, word_slots};

    // The next word, or the place of the body's end.
    fn token(&mut self) -> Result<Token<'a>, Misworded>
        ensures { MatchResult result (λ t. WordAt self.old.words.body.now self.old.words.at t × Takes self.old self.new (text t)) (λ e. (words_left self.old.words ≡ []) × (e.at ≡ length self.old.words.body.now)) }
    {
        self.words.next().ok_or(Misworded {
            at: self.words.body.len(),
        })
    }

    // The command that the next word asks for.
    pub(crate) fn command(&mut self) -> Result<Command, Misworded>
        ensures { MatchResult result (λ k. Takes self.old self.new (first k)) (λ e. (k : Command) → LacksAt (a_word (first k)) self.old e) }
    {
        let token = self.token()?;
        value_of(token.text()).ok_or(Misworded { at: token.at() })
    }

    // What the next word says.
    pub(crate) fn part<T: Part>(&mut self) -> Result<T, Misworded>
        ensures { MatchResult result (λ x. T.IsSmall x × Takes self.old self.new (T.spelled x)) (LacksAt T.slot self.old) }
    {
        let token = self.token()?;
        T::from_token(token).ok_or(Misworded { at: token.at() })
    }

    // The word itself.
    pub(crate) fn keyword(&mut self, word: &[u8]) -> Result<(), Misworded>
        ensures { MatchResult result (λ _. Takes self.old self.new word.now) (LacksAt (a_word word.now) self.old) }
    {
        let token = self.token()?;
        if token.text() == word {
            Ok(())
        } else {
            Err(Misworded { at: token.at() })
        }
    }

    // No word is left.
    pub(crate) fn end(&self) -> Result<(), Misworded>
        ensures { MatchResult result (λ _. words_left self.now.words ≡ []) (StraysAt [] self.now) }
    {
        match word_at(self.words.body, self.words.at) {
            None => Ok(()),
            Some(token) => Err(Misworded { at: token.at() }),
        }
    }

    // These words, and no more.
    fn remaining(mut self, words: &[&[u8]]) -> Result<(), Misworded>
        ensures { MatchResult result (λ _. words_left self.entry.words ≡ texts words.now) (StraysAt (word_slots (texts words.now)) self.entry) }
    {
        for word in words {
            self.keyword(word)?;
        }
        self.end()
    }

    // Whether the words of a tail follow, and no more; or none at all.
    pub(crate) fn tail(self, tail: &[&[u8]]) -> Result<bool, Misworded>
        ensures { MatchResult result (λ b. words_left self.entry.words ≡ (if b then texts tail.now else [])) (ErrsAt [] (word_slots (texts tail.now)) self.entry) }
    {
        if self.end().is_ok() {
            return Ok(false);
        }
        self.remaining(tail)?;
        Ok(true)
    }
}
