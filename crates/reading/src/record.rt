// A record of an input: who issued it, what it says, and where the next one starts.
#[derive(Clone, Copy, Debug)]
pub struct Record<'a> {
    pub issuer: u8,
    pub body: &'a [u8],
    pub next: usize,
}
