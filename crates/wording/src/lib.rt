// What the body of a record says, or where it stops making sense.
#![tactic(auto)]

ghost use Rattle.wording.specs.Answers.{AnswersAt, Parsed};

pub mod fault;
pub mod issued;
mod ranges;

use fault::WordingFault;
use grammar::parse;
use grammar::sentence::Sentence;
use issued::IssuedSentence;
use ranges::ranges;
use reading::read;

// The sentence of a body, its numbers in range; or the place where the body goes wrong.
pub fn sentence_of(body: &[u8]) -> Result<Sentence, WordingFault>
    ensures { Parsed body.now result }
{
    let sentence = parse(body)?;
    ranges(body)?;
    Ok(sentence)
}

// The sentence of the record at an offset of an input, or none at the input's end.
pub fn sentence_at(input: &[u8], at: usize) -> Result<Option<IssuedSentence>, WordingFault>
    ensures { AnswersAt input.now at result }
{
    let Some(record) = read(input, at)? else {
        return Ok(None);
    };
    let sentence = sentence_of(record.body)?;
    Ok(Some(IssuedSentence {
        issuer: record.issuer,
        sentence,
        next: record.next,
    }))
}
