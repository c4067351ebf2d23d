// What is written for texts of groups.
use crate::report::report;
use std::test::Fail;

const SAME: &[u8] = b"key=0123456789abcdeffedcba9876543210\n\
    plain=0123456789abcdeffedcba9876543210\n\
    cipher=67673138549669730857065648eabe43\n\
    key=0123456789abcdeffedcba98765432100011223344556677\n\
    plain=0123456789abcdeffedcba9876543210\n\
    cipher=b4993401b3e996f84ee5cee7d79b09b9\n\
    key=0123456789abcdeffedcba987654321000112233445566778899aabbccddeeff\n\
    plain=0123456789abcdeffedcba9876543210\n\
    cipher=9acc237dff16d76c20ef7c919e3a7509\n";

const CASES: [(&str, &[u8], &str); 5] = [
    (
        "RFC 3713's examples agree",
        SAME,
        "group=1 byte=same word=same long=same\ngroup=2 byte=same word=same long=same\ngroup=3 byte=same word=same long=same\n",
    ),
    ("an empty text has no line", b"", ""),
    (
        "another cipher block differs, and the run goes on",
        b"key=0123456789abcdeffedcba9876543210\n\
        plain=0123456789abcdeffedcba9876543210\n\
        cipher=67673138549669730857065648eabe44\n\
        key=0123456789abcdeffedcba9876543210\n\
        plain=0123456789abcdeffedcba9876543210\n\
        cipher=67673138549669730857065648eabe43\n",
        "group=1 byte=differs word=differs long=differs\ngroup=2 byte=same word=same long=same\n",
    ),
    (
        "a malformed group ends the run",
        b"key=0123456789abcdeffedcba9876543210\n\
        plain=0123456789abcdeffedcba9876543210\n\
        cipher=67673138549669730857065648EABE43\n\
        key=0123456789abcdeffedcba9876543210\n",
        "group=1 malformed\n",
    ),
    (
        "a text that is no group is malformed",
        b"\n",
        "group=1 malformed\n",
    ),
];

#[test]
fn a_tester_reads_the_right_lines(rt: HostRuntime) -> Result<(), Fail> {
    for (name, text, lines) in CASES.iter() {
        let out = report(rt.alloc(), text)?;
        assert!(rt; out.as_str() == *lines, "{}", *name);
    }
    Ok(())
}
