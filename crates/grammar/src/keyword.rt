// The values that are written as one fixed word.
ghost use Rattle.std.specs.Prelude.{◌≡◌, ◌≢◌, List, ℕ, MatchOption, Contains, All};

use crate::sentence::{Command, Restriction};
use model::kind::Kind;
use model::privilege::Privilege;

// A value of which each has a word of its own. The three impls are three tables: no code is in them.
pub trait Keyword: Copy + 'static {
    ghost word: { Self → List ℕ };

    // Every value.
    fn all() -> &'static [Self]
        ensures { (x : Self) → Contains result.now x };

    // The value's word.
    fn word(self) -> &'static [u8]
        ensures { result.now ≡ word self };
}

fn first_with<T: Keyword>(values: &[T], text: &[u8]) -> Option<T>
    ensures { MatchOption result (All (λ x. text.now ≢ T.word x) values.now) (λ x. text.now ≡ T.word x) }
{
    values.iter().copied().find(|x| x.word() == text)
}

// The value that has a word, if any has.
pub fn value_of<T: Keyword>(text: &[u8]) -> Option<T>
    ensures { MatchOption result ((x : T) → text.now ≢ T.word x) (λ x. text.now ≡ T.word x) }
{
    first_with(T::all(), text)
}

impl Keyword for Privilege {
    ghost use Rattle.grammar.specs.Sentences.{privilege_word};

    ghost word = { privilege_word };

    fn all() -> &'static [Privilege] {
        &[
            Privilege::Read,
            Privilege::Draw,
            Privilege::Hint,
            Privilege::Proof,
            Privilege::Build,
            Privilege::Export,
            Privilege::Rename,
            Privilege::Drop,
        ]
    }

    fn word(self) -> &'static [u8] {
        match self {
            Privilege::Read => b"read",
            Privilege::Draw => b"draw",
            Privilege::Hint => b"hint",
            Privilege::Proof => b"proof",
            Privilege::Build => b"build",
            Privilege::Export => b"export",
            Privilege::Rename => b"rename",
            Privilege::Drop => b"drop",
        }
    }
}

impl Keyword for Kind {
    ghost use Rattle.grammar.specs.Sentences.{kind_word};

    ghost word = { kind_word };

    fn all() -> &'static [Kind] {
        &[Kind::Library, Kind::Face, Kind::Hints, Kind::Bitmaps]
    }

    fn word(self) -> &'static [u8] {
        match self {
            Kind::Library => b"library",
            Kind::Face => b"face",
            Kind::Hints => b"hints",
            Kind::Bitmaps => b"bitmaps",
        }
    }
}

impl Keyword for Command {
    ghost use Rattle.grammar.specs.Sentences.{first};

    ghost word = { first };

    fn all() -> &'static [Command] {
        &[
            Command::Role,
            Command::Object,
            Command::Link,
            Command::Cut,
            Command::Grant,
            Command::Restrict(Restriction::Taint),
            Command::Restrict(Restriction::Suspend),
            Command::Restrict(Restriction::Deny),
            Command::Revoke,
            Command::Check,
        ]
    }

    fn word(self) -> &'static [u8] {
        match self {
            Command::Role => b"ROLE",
            Command::Object => b"OBJECT",
            Command::Link => b"LINK",
            Command::Cut => b"CUT",
            Command::Grant => b"GRANT",
            Command::Restrict(Restriction::Taint) => b"TAINT",
            Command::Restrict(Restriction::Suspend) => b"SUSPEND",
            Command::Restrict(Restriction::Deny) => b"DENY",
            Command::Revoke => b"REVOKE",
            Command::Check => b"CHECK",
        }
    }
}
