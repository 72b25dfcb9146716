// The records of an input as lines, and the refusal at which they end.
ghost use Rattle.std.specs.Prelude.{◌≡◌, ℕ, List, ◌++◌, IfOk, string_bytes, OnOk};
ghost use Rattle.std.specs.List.{flat_map};
ghost use Rattle.reading.specs.Records.{frame};
ghost use Rattle.notation.specs.Results.{Listed};
ghost use Rattle.notation.specs.Shown.{RemarkOn, ended, line, shown};

use crate::escape::{hex_digit, is_plain};
use reading::record::Record;
use reading::records::Records;
use std::alloc::{AllocError, Global};
use wording::sentence_of;

// A line for each record, and one for the fault that ends them, if one does.
pub fn listing(heap: Global, input: &[u8]) -> Result<String, AllocError>
    ensures { IfOk result (λ s. Listed input.now (string_bytes s)) }
{
    let mut out = String::new(heap);
    for entry in Records::new(input) {
        match entry {
            Ok(record) => show_record(&mut out, record)?,
            Err(fault) => writeln!(out, "{fault}")?,
        }
    }
    Ok(out)
}

// The line of a record, with a remark if its body is no sentence.
fn show_record(out: &mut String, found: Record<'_>) -> Result<(), AllocError>
    ensures { OnOk result ((m : List ℕ) × (RemarkOn found.entry.body.now m × (string_bytes out.new ≡ string_bytes out.old ++ ended (line (frame found.entry) ++ m)))) }
{
    let Record { issuer, body, .. } = found;
    write!(out, "u{issuer} ")?;
    show_body(out, body)?;
    show_remark(out, body)?;
    writeln!(out)
}

fn show_body(out: &mut String, body: &[u8]) -> Result<(), AllocError>
    ensures { OnOk result (string_bytes out.new ≡ string_bytes out.old ++ flat_map shown body.now) }
{
    for b in body {
        show_byte(out, *b)?;
    }
    Ok(())
}

// Digit by digit: of a body of raw bytes the formatter would be most of the time that a listing takes.
#[tactic(auto, using(crate::proofs::Showing::shown_escaped))]
fn show_byte(out: &mut String, b: u8) -> Result<(), AllocError>
    ensures { OnOk result (string_bytes out.new ≡ string_bytes out.old ++ shown b) }
{
    if is_plain(b) {
        return out.push(b as char);
    }
    out.push_str("\\x")?;
    out.push(hex_digit(b / 16) as char)?;
    out.push(hex_digit(b % 16) as char)
}

// Nothing behind a sentence; behind any other body a tab and the refusal.
fn show_remark(out: &mut String, body: &[u8]) -> Result<(), AllocError>
    ensures { OnOk result ((m : List ℕ) × (RemarkOn body.now m × (string_bytes out.new ≡ string_bytes out.old ++ m))) }
{
    match sentence_of(body) {
        Ok(_) => Ok(()),
        Err(fault) => write!(out, "\t{fault}"),
    }
}
