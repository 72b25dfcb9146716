// Writing a sentence: the body that spells it.
#![tactic(auto)]

ghost use Rattle.std.specs.Prelude.{◌≡◌, [], ◌∷◌, IfOk};
ghost use Rattle.words.specs.Words.{principal_word, join};
ghost use Rattle.grammar.specs.Sentences.{first, right_words, spell as spell_of};
ghost use Rattle.model.specs.declared.principal.Principal.TheVariants.{Role as RoleOf};
ghost use Rattle.grammar.specs.declared.sentence.Sentence.TheVariants as sentence_of;

mod body;

use body::Body;
use grammar::keyword::Keyword;
use grammar::sentence::{Command, Restriction, Sentence};
use model::kind::Kind;
use model::principal::Principal;
use model::privilege::Privilege;
use model::right::Right;
use std::alloc::{AllocError, Global};

fn role_body(heap: Global, role: u8, level: u8) -> Result<Body, AllocError>
    ensures { IfOk result (λ b. b.bytes.items ≡ join (spell_of (sentence_of.Role role level))) }
{
    let mut body = Body::of(heap, Command::Role)?;
    body.principal(Principal::Role(role))?;
    body.word(b"LEVEL")?;
    body.number(level)?;
    Ok(body)
}

fn object_body(heap: Global, object: u8, kind: Kind, owner: u8) -> Result<Body, AllocError>
    ensures { IfOk result (λ b. b.bytes.items ≡ join (spell_of (sentence_of.Object object kind owner))) }
{
    let mut body = Body::of(heap, Command::Object)?;
    body.object(object)?;
    body.word(b"TYPE")?;
    body.word(kind.word())?;
    body.word(b"OWNER")?;
    body.principal(Principal::User(owner))?;
    Ok(body)
}

// A command's word, and a role and a principal with a word between.
fn pair_body(
    heap: Global,
    command: Command,
    role: u8,
    word: &[u8],
    upper: Principal,
) -> Result<Body, AllocError>
    ensures { IfOk result (λ b. b.bytes.items ≡ join (first command ∷ principal_word (RoleOf role) ∷ word.now ∷ principal_word upper ∷ [])) }
{
    let mut body = Body::of(heap, command)?;
    body.pair(role, word, upper)?;
    Ok(body)
}

// A command's word, and a right and a principal with a word between.
fn right_body(
    heap: Global,
    command: Command,
    right: Right,
    word: &[u8],
    principal: Principal,
) -> Result<Body, AllocError>
    ensures { IfOk result (λ b. b.bytes.items ≡ join (first command ∷ right_words right.privilege right.object word.now principal [])) }
{
    let mut body = Body::of(heap, command)?;
    body.right(right, word, principal)?;
    Ok(body)
}

// This and the next take what a sentence holds, field by field, as the statements name it.
fn granted(
    heap: Global,
    privilege: Privilege,
    object: u8,
    grantee: Principal,
    option: bool,
) -> Result<Body, AllocError>
    ensures { IfOk result (λ b. b.bytes.items ≡ join (spell_of (sentence_of.Grant privilege object grantee option))) }
{
    let right = Right { object, privilege };
    let mut body = right_body(heap, Command::Grant, right, b"TO", grantee)?;
    if option {
        body.word(b"OPTION")?;
    }
    Ok(body)
}

fn restricted(
    heap: Global,
    restriction: Restriction,
    privilege: Privilege,
    object: u8,
    grantee: Principal,
    neutral: bool,
) -> Result<Body, AllocError>
    ensures { IfOk result (λ b. b.bytes.items ≡ join (spell_of (sentence_of.Restrict restriction privilege object grantee neutral))) }
{
    let right = Right { object, privilege };
    let mut body = right_body(heap, Command::Restrict(restriction), right, b"TO", grantee)?;
    if neutral {
        body.word(b"NEUT")?;
        body.word(b"ORNT")?;
    }
    Ok(body)
}

// The body that spells the sentence.
pub fn spell(heap: Global, sentence: Sentence) -> Result<Vec<u8>, AllocError>
    ensures { IfOk result (λ v. v.items ≡ join (spell_of sentence)) }
{
    let body = match sentence {
        Sentence::Role { role, level } => role_body(heap, role, level)?,
        Sentence::Object {
            object,
            kind,
            owner,
        } => object_body(heap, object, kind, owner)?,
        Sentence::Link { role, upper } => pair_body(heap, Command::Link, role, b"TO", upper)?,
        Sentence::Cut { role, upper } => pair_body(heap, Command::Cut, role, b"FROM", upper)?,
        Sentence::Grant {
            privilege,
            object,
            grantee,
            option,
        } => granted(heap, privilege, object, grantee, option)?,
        Sentence::Restrict {
            restriction,
            privilege,
            object,
            grantee,
            neutral,
        } => restricted(heap, restriction, privilege, object, grantee, neutral)?,
        Sentence::Revoke {
            privilege,
            object,
            grantee,
        } => right_body(
            heap,
            Command::Revoke,
            Right { object, privilege },
            b"FROM",
            grantee,
        )?,
        Sentence::Check {
            privilege,
            object,
            principal,
        } => right_body(
            heap,
            Command::Check,
            Right { object, privilege },
            b"FOR",
            principal,
        )?,
    };
    Ok(body.bytes)
}
