// The sentences: what a body says, whatever its numbers.
#![tactic(auto)]

ghost use Rattle.std.specs.Prelude.{MatchResult};
ghost use Rattle.grammar.specs.Sentences.{written, NoSentence, Spells};
ghost use Rattle.grammar.specs.Steps.{Continues};

mod forms;
pub mod keyword;
mod parts;
mod phrase;
pub mod sentence;

use forms::{
    check_form, cut_form, grant_form, link_form, object_form, restrict_form, revoke_form, role_form,
};
use phrase::Phrase;
use sentence::{Command, Misworded, Sentence};
use words::iter::Words;

// The sentence of a command, from the words after its first. A `match` and no table of functions:
// what each form promises names its command.
fn form(command: Command, words: Phrase) -> Result<Sentence, Misworded>
    ensures { Continues command words.entry result }
{
    match command {
        Command::Role => role_form(words),
        Command::Object => object_form(words),
        Command::Link => link_form(words),
        Command::Cut => cut_form(words),
        Command::Grant => grant_form(words),
        Command::Restrict(restriction) => restrict_form(restriction, words),
        Command::Revoke => revoke_form(words),
        Command::Check => check_form(words),
    }
}

// The sentence that the body is, or the place where it stops being one.
pub fn parse(body: &[u8]) -> Result<Sentence, Misworded>
    ensures { MatchResult result (Spells written body.now) (λ e. NoSentence body.now e.at) }
{
    let mut words = Phrase {
        words: Words { body, at: 0 },
    };
    let command = words.command()?;
    form(command, words)
}
