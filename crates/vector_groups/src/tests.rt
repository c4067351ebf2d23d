// The groups that RFC 3713 gives, and texts that are no group.
use crate::group::{Group, Key};
use crate::parse::parse;

const KEY_128: &[u8; 16] = b"\x01\x23\x45\x67\x89\xab\xcd\xef\xfe\xdc\xba\x98\x76\x54\x32\x10";

const KEY_192: &[u8; 24] =
    b"\x01\x23\x45\x67\x89\xab\xcd\xef\xfe\xdc\xba\x98\x76\x54\x32\x10\x00\x11\x22\x33\x44\x55\x66\x77";

const KEY_256: &[u8; 32] =
    b"\x01\x23\x45\x67\x89\xab\xcd\xef\xfe\xdc\xba\x98\x76\x54\x32\x10\x00\x11\x22\x33\x44\x55\x66\x77\x88\x99\xaa\xbb\xcc\xdd\xee\xff";

const PLAIN: &[u8; 16] = b"\x01\x23\x45\x67\x89\xab\xcd\xef\xfe\xdc\xba\x98\x76\x54\x32\x10";

const MISTAKES: [(&str, &[u8]); 12] = [
    (
        "a key of 15 bytes",
        b"key=0123456789abcdeffedcba98765432\n\
        plain=0123456789abcdeffedcba9876543210\n\
        cipher=67673138549669730857065648eabe43\n",
    ),
    (
        "a key of 17 bytes",
        b"key=0123456789abcdeffedcba987654321000\n\
        plain=0123456789abcdeffedcba9876543210\n\
        cipher=67673138549669730857065648eabe43\n",
    ),
    (
        "a key of 20 bytes",
        b"key=0123456789abcdeffedcba987654321000112233\n\
        plain=0123456789abcdeffedcba9876543210\n\
        cipher=67673138549669730857065648eabe43\n",
    ),
    (
        "a key of 33 bytes",
        b"key=0123456789abcdeffedcba987654321000112233445566778899aabbccddeeff00\n\
        plain=0123456789abcdeffedcba9876543210\n\
        cipher=67673138549669730857065648eabe43\n",
    ),
    (
        "an upper-case digit",
        b"key=0123456789abcdeffedcba9876543210\n\
        plain=0123456789Abcdeffedcba9876543210\n\
        cipher=67673138549669730857065648eabe43\n",
    ),
    (
        "a missing digit",
        b"key=0123456789abcdeffedcba9876543210\n\
        plain=0123456789abcdeffedcba987654321\n\
        cipher=67673138549669730857065648eabe43\n",
    ),
    (
        "an extra digit",
        b"key=0123456789abcdeffedcba9876543210\n\
        plain=0123456789abcdeffedcba9876543210\n\
        cipher=67673138549669730857065648eabe430\n",
    ),
    (
        "the plain block first",
        b"plain=0123456789abcdeffedcba9876543210\n\
        key=0123456789abcdeffedcba9876543210\n\
        cipher=67673138549669730857065648eabe43\n",
    ),
    (
        "an empty line first",
        b"\n\
        key=0123456789abcdeffedcba9876543210\n\
        plain=0123456789abcdeffedcba9876543210\n\
        cipher=67673138549669730857065648eabe43\n",
    ),
    (
        "a carriage return",
        b"key=0123456789abcdeffedcba9876543210\r\n\
        plain=0123456789abcdeffedcba9876543210\r\n\
        cipher=67673138549669730857065648eabe43\r\n",
    ),
    (
        "a last line with no end",
        b"key=0123456789abcdeffedcba9876543210\n\
        plain=0123456789abcdeffedcba9876543210\n\
        cipher=67673138549669730857065648eabe43",
    ),
    ("nothing", b""),
];

#[test]
fn published_group_with_a_128_bit_key_loads(rt: HostRuntime) {
    let text = b"key=0123456789abcdeffedcba9876543210\n\
        plain=0123456789abcdeffedcba9876543210\n\
        cipher=67673138549669730857065648eabe43\n\
        next";
    let key = Key::Bits128(*KEY_128);
    let plain = *PLAIN;
    let cipher = *b"\x67\x67\x31\x38\x54\x96\x69\x73\x08\x57\x06\x56\x48\xea\xbe\x43";
    let group = Group { key, plain, cipher };
    assert_eq!(rt; parse(text), Some((group, b"next".as_slice())));
}

#[test]
fn published_group_with_a_192_bit_key_loads(rt: HostRuntime) {
    let text = b"key=0123456789abcdeffedcba98765432100011223344556677\n\
        plain=0123456789abcdeffedcba9876543210\n\
        cipher=b4993401b3e996f84ee5cee7d79b09b9\n\
        next";
    let key = Key::Bits192(*KEY_192);
    let plain = *PLAIN;
    let cipher = *b"\xb4\x99\x34\x01\xb3\xe9\x96\xf8\x4e\xe5\xce\xe7\xd7\x9b\x09\xb9";
    let group = Group { key, plain, cipher };
    assert_eq!(rt; parse(text), Some((group, b"next".as_slice())));
}

#[test]
fn published_group_with_a_256_bit_key_loads(rt: HostRuntime) {
    let text = b"key=0123456789abcdeffedcba987654321000112233445566778899aabbccddeeff\n\
        plain=0123456789abcdeffedcba9876543210\n\
        cipher=9acc237dff16d76c20ef7c919e3a7509\n\
        next";
    let key = Key::Bits256(*KEY_256);
    let plain = *PLAIN;
    let cipher = *b"\x9a\xcc\x23\x7d\xff\x16\xd7\x6c\x20\xef\x7c\x91\x9e\x3a\x75\x09";
    let group = Group { key, plain, cipher };
    assert_eq!(rt; parse(text), Some((group, b"next".as_slice())));
}

#[test]
fn text_with_a_mistake_is_refused(rt: HostRuntime) {
    for (mistake, text) in MISTAKES {
        assert_eq!(rt; parse(text), None, "{}", mistake);
    }
}
