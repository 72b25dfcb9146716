// Which bodies a composed record may have: named cases and no closure, since what `compose` promises is about these two.
#[derive(Clone, Copy, Debug, PartialEq, Eq)]
pub enum Bodies {
    // any, so that files with faults can be made for tests
    Any,
    // only those that wording takes for a sentence
    Sentences,
}
