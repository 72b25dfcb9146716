use grammar::sentence::Sentence;

// The sentence of a record, who issued it, and where the next record begins. Not one generic type
// with the record of bytes: `body` and `sentence` are what the statements over both read.
#[derive(Clone, Copy, Debug)]
pub struct IssuedSentence {
    pub issuer: u8,
    pub sentence: Sentence,
    pub next: usize,
}
