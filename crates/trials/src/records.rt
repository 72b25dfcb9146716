// Listing and composing at the edges of what records and lines may be.
use notation::bodies::Bodies;
use notation::composing::{ComposeFault, compose};
use notation::listing::listing;
use std::test::Fail;

// Each input, and what is listed of it.
const LISTINGS: [(&[u8], &str); 35] = [
    (b"", ""),
    // torn in the header
    (b"F", "no 2 at 0\n"),
    (b"FR", "no 2 at 0\n"),
    (b"FR\x00", "no 2 at 0\n"),
    // no mark
    (b"XR\x00\x01A", "no 3 at 0\n"),
    (b"FX\x00\x01A", "no 3 at 0\n"),
    (b"RF@\x00", "no 3 at 0\n"),
    // the last user, and the first number past it
    (b"FR?\x0eCUT r1 FROM u5", "u63 CUT r1 FROM u5\n"),
    (b"FR@\x01A", "no 4 at 0\n"),
    (b"FR\xff\x00", "no 4 at 0\n"),
    // lengths 0, 1, 64 and 65
    (b"FR\x00\x00", "no 5 at 0\n"),
    (b"FR\x00\x01A", "u0 A\tno 7 at 0\n"),
    (
        b"FR\t@ABCDEFGHIJKLMNOPABCDEFGHIJKLMNOPABCDEFGHIJKLMNOPABCDEFGHIJKLMNOP",
        "u9 ABCDEFGHIJKLMNOPABCDEFGHIJKLMNOPABCDEFGHIJKLMNOPABCDEFGHIJKLMNOP\tno 7 at 0\n",
    ),
    (
        b"FR\tAABCDEFGHIJKLMNOPABCDEFGHIJKLMNOPABCDEFGHIJKLMNOPABCDEFGHIJKLMNOPA",
        "no 5 at 0\n",
    ),
    (b"FR\x00\xff", "no 5 at 0\n"),
    // torn in the body
    (b"FR\x00\x02", "no 6 at 0\n"),
    (b"FR\x00\x02A", "no 6 at 0\n"),
    (b"FR\x00\x0eCUT r1 FROM u", "no 6 at 0\n"),
    // a fault is told with its offset, and takes the rest
    (
        b"FR\x00\x0dLINK r1 TO r0FR\n\x03CUTFR\x00\x05ROLE",
        "u0 LINK r1 TO r0\nu10 CUT\tno 7 at 3\nno 6 at 24\n",
    ),
    (b"FR\x00\x01AFR", "u0 A\tno 7 at 0\nno 2 at 5\n"),
    (b"FR\x00\x01AXFR\x00\x01A", "u0 A\tno 7 at 0\nno 3 at 5\n"),
    // bytes that are no printable ASCII, and the backslash
    (
        b"FR\x00\t\x00\x1f ~\x7f\xff\\\n\t",
        "u0 \\x00\\x1F ~\\x7F\\xFF\\x5C\\x0A\\x09\tno 7 at 0\n",
    ),
    (b"FR\x00\x02FR", "u0 FR\tno 7 at 0\n"),
    // bodies that are no sentence, or have a number that is too large
    (b"FR\x00\x10ROLE r63 LEVEL 7", "u0 ROLE r63 LEVEL 7\n"),
    (
        b"FR\x00\x10ROLE r64 LEVEL 8",
        "u0 ROLE r64 LEVEL 8\tno 8 at 5\n",
    ),
    (
        b"FR\x00\x0fROLE r0 LEVEL 8",
        "u0 ROLE r0 LEVEL 8\tno 8 at 14\n",
    ),
    (
        b"FR\x00\x10ROLE r07 LEVEL 1",
        "u0 ROLE r07 LEVEL 1\tno 7 at 5\n",
    ),
    (b"FR\x00\x07ROLE r0", "u0 ROLE r0\tno 7 at 7\n"),
    (
        b"FR\x00\x10ROLE r0 LEVEL 1 ",
        "u0 ROLE r0 LEVEL 1 \tno 7 at 16\n",
    ),
    (
        b"FR\x00\x10 ROLE r0 LEVEL 1",
        "u0  ROLE r0 LEVEL 1\tno 7 at 0\n",
    ),
    (
        b"FR\x00\x1eOBJECT o31 TYPE face OWNER u63",
        "u0 OBJECT o31 TYPE face OWNER u63\n",
    ),
    (
        b"FR\x00\x1eOBJECT o32 TYPE face OWNER u64",
        "u0 OBJECT o32 TYPE face OWNER u64\tno 8 at 7\n",
    ),
    (
        b"FR\x00\x1dGRANT read ON o0 TO u0 OPTION",
        "u0 GRANT read ON o0 TO u0 OPTION\n",
    ),
    (
        b"FR\x00\x1cDENY read ON o0 TO u0 OPTION",
        "u0 DENY read ON o0 TO u0 OPTION\tno 7 at 22\n",
    ),
    (
        b"FR\x00\x1aDENY read ON o0 TO u0 NEUT",
        "u0 DENY read ON o0 TO u0 NEUT\tno 7 at 26\n",
    ),
];

#[test]
fn listings(rt: HostRuntime) -> Result<(), Fail> {
    for (input, text) in LISTINGS.iter() {
        let shown = listing(rt.alloc(), input)?;
        assert_eq!(rt; shown.as_str(), *text);
    }
    Ok(())
}

// Each text, and the records that are made of it.
const COMPOSED: [(&[u8], &[u8]); 15] = [
    (b"", b""),
    (b"\n", b""),
    (b"\n  \t \n# u0 A\n#\n", b""),
    (b"u0 A", b"FR\x00\x01A"),
    (b"u0 A\n", b"FR\x00\x01A"),
    (b"u0 A\n\nu63 B\n# end", b"FR\x00\x01AFR\x3f\x01B"),
    (b"u10 CUT r1 FROM u5", b"FR\x0a\x0eCUT r1 FROM u5"),
    (b"u0  A ", b"FR\x00\x03 A "),
    (b"u0 #A", b"FR\x00\x02#A"),
    // remarks
    (b"u0 A\tno 7 at 0", b"FR\x00\x01A"),
    (b"\tu0 A", b""),
    (b"u0 A \t\t", b"FR\x00\x02A "),
    (
        b"u9 \\x00\\x1F ~\\x7F\\xFF\\x5C\\x0A",
        b"FR\x09\x08\x00\x1f ~\x7f\xff\\\n",
    ),
    (
        b"u9 ABCDEFGHIJKLMNOPABCDEFGHIJKLMNOPABCDEFGHIJKLMNOPABCDEFGHIJKLMNOP",
        b"FR\x09\x40ABCDEFGHIJKLMNOPABCDEFGHIJKLMNOPABCDEFGHIJKLMNOPABCDEFGHIJKLMNOP",
    ),
    (
        b"u1 \\x80\\x80\\x80\\x80\\x80\\x80\\x80\\x80\\x80\\x80\\x80\\x80\\x80\\x80\\x80\\x80\\x80",
        b"FR\x01\x11\x80\x80\x80\x80\x80\x80\x80\x80\x80\x80\x80\x80\x80\x80\x80\x80\x80",
    ),
];

#[test]
fn composed(rt: HostRuntime) -> Result<(), Fail> {
    for (text, records) in COMPOSED.iter() {
        let made = compose(rt.alloc(), text, Bodies::Any)?;
        assert!(rt; made.as_slice() == *records);
    }
    Ok(())
}

// Each text that is refused, and the number of the line.
const REFUSED: [(&[u8], usize); 29] = [
    (b"u64 A", 1),
    (b"u99 A", 1),
    (b"u100 A", 1),
    (b"u00 A", 1),
    (b"u07 A", 1),
    (b"u", 1),
    (b"u0", 1),
    (b"u0 ", 1),
    (b"u A", 1),
    (b"u0A", 1),
    (b"u-1 A", 1),
    (b"U0 A", 1),
    (b"r0 A", 1),
    (b" u0 A", 1),
    (b"no 6 at 34", 1),
    (b"u0\tA", 1),
    (b"u0 A\r\n", 1),
    (b"u0 \xc3\xa9", 1),
    (b"u0 \x00", 1),
    // escapes
    (b"u0 \\", 1),
    (b"u0 \\x", 1),
    (b"u0 \\x0", 1),
    (b"u0 \\n", 1),
    (b"u0 \\X0A", 1),
    (b"u0 \\x0a", 1),
    (b"u0 \\xG0", 1),
    (b"u0 \\x41", 1),
    // 65 bytes
    (
        b"u9 ABCDEFGHIJKLMNOPABCDEFGHIJKLMNOPABCDEFGHIJKLMNOPABCDEFGHIJKLMNOPA",
        1,
    ),
    // lines before it that are sound, blank or comments count
    (b"u0 A\n\n# B\nu1 \nu0 C\n", 4),
];

#[test]
fn refused(rt: HostRuntime) -> Result<(), Fail> {
    for (text, number) in REFUSED.iter() {
        let Err(ComposeFault::Line(line)) = compose(rt.alloc(), text, Bodies::Any) else {
            return Err(Fail::new("a text was composed"));
        };
        assert_eq!(rt; line, *number);
    }
    Ok(())
}

// Each text, and the line that is refused, if one is, where only sentences may be composed.
const STRICTLY: [(&[u8], Option<usize>); 8] = [
    (b"u0 ROLE r0 LEVEL 2", None),
    (b"u0 ROLE r63 LEVEL 7\tno 7 at 0", None),
    (b"u0 ROLE r64 LEVEL 7", Some(1)),
    (b"u0 ROLE r0 LEVEL 8", Some(1)),
    (b"u0 ROLE r00 LEVEL 1", Some(1)),
    (b"u0 A", Some(1)),
    (b"u64 ROLE r0 LEVEL 2", Some(1)),
    (b"# u0 A\nu0 CUT r1 FROM u5\n\nu0 CUT r1 FROM\n", Some(4)),
];

#[test]
fn strictly(rt: HostRuntime) -> Result<(), Fail> {
    for (text, number) in STRICTLY.iter() {
        let refused = match compose(rt.alloc(), text, Bodies::Sentences) {
            Ok(_) => None,
            Err(ComposeFault::Line(line)) => Some(line),
            Err(ComposeFault::Memory) => return Err(Fail::new("no memory")),
        };
        assert_eq!(rt; refused, *number);
    }
    Ok(())
}
