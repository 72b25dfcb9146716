// A body that is being written.
ghost use Rattle.std.specs.Prelude.{◌≡◌, [], ◌∷◌, ◌++◌, IfOk, OnOk};
ghost use Rattle.words.specs.Words.{digits as digits_of, principal_word, object_word, join};
ghost use Rattle.grammar.specs.Sentences.{first, right_words};
ghost use Rattle.model.specs.declared.principal.Principal.TheVariants.{Role as RoleOf};

use grammar::keyword::Keyword;
use grammar::sentence::Command;
use model::principal::Principal;
use model::right::Right;
use std::alloc::{AllocError, Global};

// The words so far, with a space between each and the next. They are added in place: a body that
// went from step to step by value would be moved at each word.
#[derive(Drop)]
pub(crate) struct Body {
    pub bytes: Vec<u8>,
}

impl Body {
    // The body of a command's first word.
    pub(crate) fn of(heap: Global, command: Command) -> Result<Body, AllocError>
        ensures { IfOk result (λ b. b.bytes.items ≡ first command) }
    {
        let mut bytes = Vec::new(heap);
        bytes.extend_from_slice(command.word())?;
        Ok(Body { bytes })
    }

    pub(crate) fn word(&mut self, word: &[u8]) -> Result<(), AllocError>
        ensures { OnOk result (self.new.bytes.items ≡ self.old.bytes.items ++ (32 ∷ word.now)) }
    {
        self.bytes.push(b' ')?;
        self.bytes.extend_from_slice(word)
    }

    // The digits of a number, with no space before.
    fn digits(&mut self, n: u8) -> Result<(), AllocError>
        ensures { OnOk result (self.new.bytes.items ≡ self.old.bytes.items ++ digits_of n) }
    {
        if n < 10 {
            self.bytes.push(b'0' + n)?;
            return Ok(());
        }
        self.bytes.push(b'0' + n / 10)?;
        self.bytes.push(b'0' + n % 10)?;
        Ok(())
    }

    pub(crate) fn number(&mut self, n: u8) -> Result<(), AllocError>
        ensures { OnOk result (self.new.bytes.items ≡ self.old.bytes.items ++ (32 ∷ digits_of n)) }
    {
        self.bytes.push(b' ')?;
        self.digits(n)
    }

    // A letter and a number.
    fn numbered(&mut self, letter: u8, n: u8) -> Result<(), AllocError>
        ensures { OnOk result (self.new.bytes.items ≡ self.old.bytes.items ++ (32 ∷ letter ∷ digits_of n)) }
    {
        self.bytes.push(b' ')?;
        self.bytes.push(letter)?;
        self.digits(n)
    }

    pub(crate) fn principal(&mut self, principal: Principal) -> Result<(), AllocError>
        ensures { OnOk result (self.new.bytes.items ≡ self.old.bytes.items ++ (32 ∷ principal_word principal)) }
    {
        match principal {
            Principal::User(n) => self.numbered(b'u', n),
            Principal::Role(n) => self.numbered(b'r', n),
        }
    }

    pub(crate) fn object(&mut self, object: u8) -> Result<(), AllocError>
        ensures { OnOk result (self.new.bytes.items ≡ self.old.bytes.items ++ (32 ∷ object_word object)) }
    {
        self.numbered(b'o', object)
    }

    // A role and a principal, with a word between.
    pub(crate) fn pair(&mut self, role: u8, word: &[u8], upper: Principal) -> Result<(), AllocError>
        ensures { OnOk result (self.new.bytes.items ≡ self.old.bytes.items ++ (32 ∷ join (principal_word (RoleOf role) ∷ word.now ∷ principal_word upper ∷ []))) }
    {
        self.principal(Principal::Role(role))?;
        self.word(word)?;
        self.principal(upper)
    }

    // A right and a principal, with a word before the principal.
    pub(crate) fn right(
        &mut self,
        right: Right,
        word: &[u8],
        principal: Principal,
    ) -> Result<(), AllocError>
        ensures { OnOk result (self.new.bytes.items ≡ self.old.bytes.items ++ (32 ∷ join (right_words right.privilege right.object word.now principal []))) }
    {
        self.word(right.privilege.word())?;
        self.word(b"ON")?;
        self.object(right.object)?;
        self.word(word)?;
        self.principal(principal)
    }
}
