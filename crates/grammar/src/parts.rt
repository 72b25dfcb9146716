// The values that a word of a sentence says.
ghost use Rattle.std.specs.Prelude.{◌≡◌, ℕ, ◌≤◌, List, MatchOption, ⊤};
ghost use Rattle.words.specs.Words.{digits, index, principal_word, object_word, text, place, Tells};
ghost use Rattle.model.specs.declared.principal.Principal.TheVariants.{User as UserOf, Role as RoleOf};
ghost use Rattle.grammar.specs.Sentences.{Slot, Fits, a_role, a_user, a_principal, an_object, a_number, a_privilege, a_kind, privilege_word, kind_word};

use crate::keyword::value_of;
use model::kind::Kind;
use model::principal::Principal;
use model::privilege::Privilege;
use words::token::Token;

// A value that fills a slot of a sentence.
pub(crate) trait Part: Copy {
    ghost slot: { Slot };

    // The word of a value.
    ghost spelled: { Self → List ℕ };

    // Whether a word can say the value.
    ghost IsSmall: { Self → Type 0 };

    // The value that a word says, if it fits the slot.
    fn from_token(token: Token) -> Option<Self>
        requires { Tells (text token) (place token) token }
        ensures { MatchOption result (Fits slot (text token.entry) → ⊥) (λ x. IsSmall x × (text token.entry ≡ spelled x)) };
}

// The numbers of roles, users and objects, and levels: each is read from words of another kind.
#[derive(Clone, Copy)]
pub(crate) struct Role(pub u8);

#[derive(Clone, Copy)]
pub(crate) struct User(pub u8);

#[derive(Clone, Copy)]
pub(crate) struct Object(pub u8);

#[derive(Clone, Copy)]
pub(crate) struct Number(pub u8);

impl Part for Role {
    ghost slot = { a_role };

    ghost spelled = { λ role. principal_word (RoleOf role.0) };

    ghost IsSmall = { λ role. role.0 ≤ 99 };

    fn from_token(token: Token) -> Option<Role> {
        match Principal::from_token(token)? {
            Principal::Role(role) => Some(Role(role)),
            Principal::User(_) => None,
        }
    }
}

impl Part for User {
    ghost slot = { a_user };

    ghost spelled = { λ user. principal_word (UserOf user.0) };

    ghost IsSmall = { λ user. user.0 ≤ 99 };

    fn from_token(token: Token) -> Option<User> {
        match Principal::from_token(token)? {
            Principal::User(user) => Some(User(user)),
            Principal::Role(_) => None,
        }
    }
}

impl Part for Principal {
    ghost slot = { a_principal };

    ghost spelled = { principal_word };

    ghost IsSmall = { λ principal. index principal ≤ 99 };

    fn from_token(token: Token) -> Option<Principal> {
        match token {
            Token::Principal { principal, .. } => Some(principal),
            _ => None,
        }
    }
}

// One impl for each case of a token: each says its own slot and word.
impl Part for Object {
    ghost slot = { an_object };

    ghost spelled = { λ object. object_word object.0 };

    ghost IsSmall = { λ object. object.0 ≤ 99 };

    fn from_token(token: Token) -> Option<Object> {
        match token {
            Token::Object { object, .. } => Some(Object(object)),
            _ => None,
        }
    }
}

impl Part for Number {
    ghost slot = { a_number };

    ghost spelled = { λ number. digits number.0 };

    ghost IsSmall = { λ number. number.0 ≤ 99 };

    fn from_token(token: Token) -> Option<Number> {
        match token {
            Token::Number { number, .. } => Some(Number(number)),
            _ => None,
        }
    }
}

impl Part for Privilege {
    ghost slot = { a_privilege };

    ghost spelled = { privilege_word };

    ghost IsSmall = { λ _. ⊤ };

    fn from_token(token: Token) -> Option<Privilege> {
        value_of(token.text())
    }
}

impl Part for Kind {
    ghost slot = { a_kind };

    ghost spelled = { kind_word };

    ghost IsSmall = { λ _. ⊤ };

    fn from_token(token: Token) -> Option<Kind> {
        value_of(token.text())
    }
}
