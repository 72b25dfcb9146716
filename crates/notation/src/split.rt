// The lines of a text.
ghost use Rattle.std.specs.Prelude.{◌≡◌, ◌==◌};
ghost use Rattle.std.specs.List.{position};
ghost use Rattle.notation.specs.Lines.{blank, skipped, unremarked};

// Whether a byte ends a line.
pub(crate) fn ends_line(b: &u8) -> bool
    ensures { result ≡ (b.now == 10) }
{
    *b == b'\n'
}

// Where a byte stands first.
pub(crate) fn first_of(line: &[u8], byte: u8) -> Option<usize>
    ensures { result ≡ position (λ b. b == byte) line.now }
{
    line.iter().position(|b| *b == byte)
}

// A line up to its remark.
#[tactic(auto, using(crate::proofs::Splitting::to_tab, crate::proofs::Splitting::no_tab))]
pub(crate) fn statement(line: &[u8]) -> &[u8]
    ensures { result.now ≡ unremarked line.now }
{
    match first_of(line, b'\t') {
        Some(tab) => &line[..tab],
        None => line,
    }
}

// Whether a line is blank, or a comment.
pub(crate) fn is_skipped(line: &[u8]) -> bool
    ensures { result ≡ skipped line.now }
{
    line.starts_with(b"#") || is_blank(line)
}

fn is_blank(line: &[u8]) -> bool
    ensures { result ≡ blank line.now }
{
    line.iter().all(|b| *b == b' ')
}
