// The sentences of each command, from the word after its first.
ghost use Rattle.std.specs.Prelude.{◌≡◌, ◌≤◌, List, [], ◌∷◌, MatchResult};
ghost use Rattle.words.specs.Words.{index, principal_word};
ghost use Rattle.words.specs.Iter.{words_left};
ghost use Rattle.model.specs.declared.principal.Principal.TheVariants.{Role as RoleOf};
ghost use Rattle.grammar.specs.declared.sentence.Command.TheVariants as command;
ghost use Rattle.grammar.specs.Sentences.{Slot, pair_slots, right_slots};
ghost use Rattle.grammar.specs.Steps.{TakesRight, Continues, ErrsAt};

use crate::parts::{Number, Object, Role, User};
use crate::phrase::Phrase;
use crate::sentence::{Misworded, Restriction, Sentence};
use model::principal::Principal;
use model::right::Right;

pub(crate) fn role_form(mut words: Phrase) -> Result<Sentence, Misworded>
    ensures { Continues command.Role words.entry result }
{
    let Role(role) = words.part()?;
    words.keyword(b"LEVEL")?;
    let Number(level) = words.part()?;
    words.end()?;
    Ok(Sentence::Role { role, level })
}

pub(crate) fn object_form(mut words: Phrase) -> Result<Sentence, Misworded>
    ensures { Continues command.Object words.entry result }
{
    let Object(object) = words.part()?;
    words.keyword(b"TYPE")?;
    let kind = words.part()?;
    words.keyword(b"OWNER")?;
    let User(owner) = words.part()?;
    words.end()?;
    Ok(Sentence::Object {
        object,
        kind,
        owner,
    })
}

// A role and a principal, with a word between.
fn pair(mut words: Phrase, word: &[u8]) -> Result<(u8, Principal), Misworded>
    ensures { MatchResult result (λ x. (x.0 ≤ 99) × (index x.1 ≤ 99) × (words_left words.entry.words ≡ principal_word (RoleOf x.0) ∷ word.now ∷ principal_word x.1 ∷ [])) (ErrsAt (pair_slots word.now) [] words.entry) }
{
    let Role(lower) = words.part()?;
    words.keyword(word)?;
    let upper = words.part()?;
    words.end()?;
    Ok((lower, upper))
}

pub(crate) fn link_form(words: Phrase) -> Result<Sentence, Misworded>
    ensures { Continues command.Link words.entry result }
{
    let (role, upper) = pair(words, b"TO")?;
    Ok(Sentence::Link { role, upper })
}

pub(crate) fn cut_form(words: Phrase) -> Result<Sentence, Misworded>
    ensures { Continues command.Cut words.entry result }
{
    let (role, upper) = pair(words, b"FROM")?;
    Ok(Sentence::Cut { role, upper })
}

// A right and a principal, with a word before the principal.
fn right(words: &mut Phrase, word: &[u8]) -> Result<(Right, Principal), Misworded>
    ensures { MatchResult result (λ x. TakesRight words.old words.new word.now x.0.privilege x.0.object x.1) (λ e. (tail : List Slot) → ErrsAt (right_slots word.now) tail words.old e) }
{
    let privilege = words.part()?;
    words.keyword(b"ON")?;
    let Object(object) = words.part()?;
    words.keyword(word)?;
    let principal = words.part()?;
    Ok((Right { object, privilege }, principal))
}

pub(crate) fn grant_form(mut words: Phrase) -> Result<Sentence, Misworded>
    ensures { Continues command.Grant words.entry result }
{
    let (right, grantee) = right(&mut words, b"TO")?;
    let option = words.tail(&[b"OPTION"])?;
    Ok(Sentence::Grant {
        privilege: right.privilege,
        object: right.object,
        grantee,
        option,
    })
}

pub(crate) fn restrict_form(
    restriction: Restriction,
    mut words: Phrase,
) -> Result<Sentence, Misworded>
    ensures { Continues (command.Restrict restriction) words.entry result }
{
    let (right, grantee) = right(&mut words, b"TO")?;
    let neutral = words.tail(&[b"NEUT", b"ORNT"])?;
    Ok(Sentence::Restrict {
        restriction,
        privilege: right.privilege,
        object: right.object,
        grantee,
        neutral,
    })
}

// Not one function with `check_form`: each promises the sentences of its own command.
pub(crate) fn revoke_form(mut words: Phrase) -> Result<Sentence, Misworded>
    ensures { Continues command.Revoke words.entry result }
{
    let (right, grantee) = right(&mut words, b"FROM")?;
    words.end()?;
    Ok(Sentence::Revoke {
        privilege: right.privilege,
        object: right.object,
        grantee,
    })
}

pub(crate) fn check_form(mut words: Phrase) -> Result<Sentence, Misworded>
    ensures { Continues command.Check words.entry result }
{
    let (right, principal) = right(&mut words, b"FOR")?;
    words.end()?;
    Ok(Sentence::Check {
        privilege: right.privilege,
        object: right.object,
        principal,
    })
}
