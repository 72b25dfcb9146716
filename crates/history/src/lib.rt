// What every list of records must be answered, and the laws that follow.
#![tactic(auto)]

ghost use Rattle.std.specs.Prelude.{◌≡◌};
ghost use Rattle.history.specs.Laws.{Laws};

use model::scale::Scale;

// The number of the last question. Its contract is what holds of every history, over every scale.
pub fn last_question<S: Scale>() -> u8
    ensures number { result ≡ 17 }
    ensures laws { Laws S.Scale.states }
{
    17
}
