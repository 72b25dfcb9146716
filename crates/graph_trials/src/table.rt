// The lines of a table of calls, as `add u5 r3`.
ghost use Rattle.std.specs.Prelude.{◌≡◌, Some, codes};
ghost use Rattle.graph_trials.specs.declared.call.Call.TheVariants.{AskCount, AskMemory};

use crate::call::Call;
use model::principal::Principal;
use std::fmt;
use std::str::FromStr;

// A line that is no call.
#[derive(Clone, Copy, Debug, PartialEq, Eq)]
pub struct NoCall;

impl fmt::Display for NoCall {
    fn fmt<W: fmt::Write>(&self, f: &mut fmt::Formatter<W>) -> fmt::Result {
        write!(f, "no call")
    }
}

impl FromStr for Call {
    ghost use Rattle.std.specs.Prelude.{Ok};

    type Err = NoCall;

    ghost from_str_gives = { λ s r. (s ≡ codes "count" → r ≡ Ok AskCount) × (s ≡ codes "memory" → r ≡ Ok AskMemory) };

    fn from_str(line: &str) -> Result<Call, NoCall> {
        call(line).ok_or(NoCall)
    }
}

fn role(word: &str) -> Option<u8> {
    word.strip_prefix('r')?.parse().ok()
}

fn principal(word: &str) -> Option<Principal> {
    match word.strip_prefix('u') {
        Some(number) => Some(Principal::User(number.parse().ok()?)),
        None => Some(Principal::Role(role(word)?)),
    }
}

fn call_of_two(verb: &str, first: &str, second: &str) -> Option<Call> {
    match verb {
        "give" => Some(Call::GiveLevel(role(first)?, second.parse().ok()?)),
        "add" => Some(Call::Add(principal(first)?, role(second)?)),
        "cut" => Some(Call::Cut(principal(first)?, role(second)?)),
        "linked" => Some(Call::AskLink(principal(first)?, role(second)?)),
        "reaches" => Some(Call::AskReach(principal(first)?, principal(second)?)),
        "above" => Some(Call::AskAbove(role(first)?, role(second)?)),
        _ => None,
    }
}

fn call(line: &str) -> Option<Call>
    ensures count { line.now ≡ codes "count" → result ≡ Some AskCount }
    ensures memory { line.now ≡ codes "memory" → result ≡ Some AskMemory }
{
    match line {
        "count" => Some(Call::AskCount),
        "memory" => Some(Call::AskMemory),
        _ => {
            let (verb, rest) = line.split_once(' ')?;
            match rest.split_once(' ') {
                Some((first, second)) => call_of_two(verb, first, second),
                None => Some(Call::AskLevel(principal(rest)?)),
            }
        }
    }
}
