//! Documents: their canonical forms, the form in version 2, and the lines, words and numbers that they are read by.

ghost use Rattle.std.specs.Prelude.{◌≤◌, length};
ghost use Rattle.om_signs.specs.declared.limits.TheConstants.{MAX_READ};

use super::made::is_made;
use om_signs::{List, MAX_INPUT, MAX_MULTIPLICITY, MAX_WEIGHT};
use om_text::lines::{before_comment, first_line, first_word, has_no_words, is_only_word, same};
use om_text::words::{plain_number, signed_number, unsigned_number};
use om_text::{Body, Document, Name, ParseError, parse, parse_part, print, print_two};
use std::alloc::Global;

/// Documents that violate the axioms of their kinds, or that no command prints in version 1. With their canonical
/// forms, and the numbers of bytes and of lines up to the line `end`.
const FORMS: [(&str, &str, usize, u32); 16] = [
    // a line has at most 64 of the 66 values
    (
        "om 1\nchirotope 2 12\n+ - 0 +++++++ ++++++++++ ++++++++++ ++++++++++ ++++++++++ ++++++++++ +++++-\n\nend",
        "om 1\nchirotope 2 12\n+-0+++++++++++++++++++++++++++++++++++++++++++++++++++++++++++++\n+-\nend\n",
        100,
        5,
    ),
    (
        "om 1\ncocircuits 2\n+-\n00\n0+\n+0\n-+\nend",
        "om 1\ncocircuits 2\n-+\n00\n0+\n+-\n+0\nend\n",
        36,
        8,
    ),
    (
        "om 1\nwiring 3\n1-2 2-3 1-2\nend",
        "om 1\nwiring 3\n1-2\n2-3\n1-2\nend\n",
        29,
        4,
    ),
    (
        "om 1\nwiring 1\n\n7-999\t0-0 # any\nend\n",
        "om 1\nwiring 1\n7-999\n0-0\nend\n",
        35,
        5,
    ),
    (
        "om 1\npoints 3 # greatest\n 1099511627776\t0 0\r\n0 -1099511627776 0\n\n0 0 -10\nend",
        "om 1\npoints 3\n1099511627776 0 0\n0 -1099511627776 0\n0 0 -10\nend\n",
        76,
        7,
    ),
    // the values of 123, 124, 134, 234, 125 and so on
    (
        "om 2\nchirotope 3 5\norder revlex\n000+- 00000\nend",
        "om 1\nchirotope 3 5\n00-000+000\nend\n",
        47,
        5,
    ),
    (
        "om 2\ncircuits 3\nhalf\n+-0\n0+-\nend",
        "om 1\ncircuits 3\n-+0\n0-+\n0+-\n+-0\nend\n",
        32,
        6,
    ),
    (
        "om 2\ncocircuits 2\nhalf\n+-\n00\n-+\n0 +\n+-\n00\nend",
        "om 1\ncocircuits 2\n-+\n0-\n00\n0+\n+-\nend\n",
        45,
        10,
    ),
    (
        "om 2\ncovectors 2\nnames a b\n+-\nend",
        "om 1\ncovectors 2\n+-\nend\n",
        33,
        5,
    ),
    (
        "om 2\nwiring 3\nnames names half end\n1-2 2-3\nend",
        "om 1\nwiring 3\n1-2\n2-3\nend\n",
        46,
        5,
    ),
    (
        "om 2\npoints 1\nnames _\n1 0 0\nend",
        "om 1\npoints 1\n1 0 0\nend\n",
        31,
        5,
    ),
    // what comes after the line `end` is not read
    (
        "om 1\npoints 1\n1 0 0\nend\n",
        "om 1\npoints 1\n1 0 0\nend\n",
        24,
        4,
    ),
    (
        "om 1\npoints 1\n1 0 0\nend",
        "om 1\npoints 1\n1 0 0\nend\n",
        23,
        4,
    ),
    (
        "om 1\npoints 1\n1 0 0\nend\nrealizable\n",
        "om 1\npoints 1\n1 0 0\nend\n",
        24,
        4,
    ),
    (
        "om 1\npoints 1\n1 0 0\nend\n# end\n\nend\n",
        "om 1\npoints 1\n1 0 0\nend\n",
        24,
        4,
    ),
    (
        "\nom 1\npoints 1\n1 0 0\nend # of it\r\n\n",
        "om 1\npoints 1\n1 0 0\nend\n",
        34,
        5,
    ),
];

/// Whether the document at the front has this canonical form, and this many bytes and lines.
fn is_read(alloc: Global, bytes: &[u8], form: &str, len: usize, lines: u32) -> bool
    requires { length bytes.now ≤ MAX_READ }
{
    match parse_part(alloc, bytes) {
        Ok((document, found, count)) => {
            let made = is_made(print(alloc, &document), form.as_bytes());
            (found, count, made) == (len, lines, true)
        }
        Err(_) => false,
    }
}

#[test]
fn canonical_forms(rt: HostRuntime) {
    for (text, form, len, lines) in &FORMS {
        let bytes = text.as_bytes();
        assert!(rt;
            bytes.len() <= MAX_INPUT && is_read(rt.alloc(), bytes, form, *len, *lines),
            "{text:?}"
        );
    }
}

/// Whether a document was read, and these are its two names.
fn has_names(found: Result<Document, ParseError>, first: &[u8], second: &[u8]) -> bool {
    match found {
        Ok(document) => match document.names.as_slice() {
            [a, b] => same(a.as_bytes(), first) && same(b.as_bytes(), second),
            _ => false,
        },
        Err(_) => false,
    }
}

// a name has at most 16 bytes
#[test]
fn names(rt: HostRuntime) {
    let text = b"om 2\ncircuits 2\nnames Abcdefghij_01234 _\nhalf\nend";
    assert!(rt; has_names(parse(rt.alloc(), text), b"Abcdefghij_01234", b"_"));
    assert!(rt; Name::new(b"Abcdefghij_012345").is_none());
}

/// Whether the wiring of two wires without blocks has this form in version 2.
fn is_form_of_two_wires(alloc: Global, form: &[u8]) -> bool {
    let document = Document {
        elements: 2,
        body: Body::Wiring(List::new(alloc)),
        names: List::new(alloc),
    };
    is_made(print_two(alloc, &document), form)
}

#[test]
fn form_in_version_two(rt: HostRuntime) {
    assert!(rt; is_form_of_two_wires(rt.alloc(), b"om 2\nwiring 2\nnames e1 e2\nend\n"));
}

#[test]
fn numbers_up_to_a_limit(rt: HostRuntime) {
    let most = MAX_WEIGHT.unsigned_abs();
    let unsigned = [
        unsigned_number(b"9223372036854775808", MAX_MULTIPLICITY),
        unsigned_number(b"9223372036854775809", MAX_MULTIPLICITY),
    ];
    let signed = [
        signed_number(b"-1267650600228229401496703205376", most),
        signed_number(b"1267650600228229401496703205377", most),
    ];
    assert!(rt; plain_number(b"999999") == Some(999_999));
    assert!(rt; unsigned == [Some(MAX_MULTIPLICITY), None] && signed == [Some(-MAX_WEIGHT), None]);
}

/// Whether there are two words, and they are these.
fn has_words(text: &[u8], first: &[u8], second: &[u8]) -> bool {
    match first_word(text) {
        Some((word, rest)) => same(word, first) && is_only_word(rest, second),
        None => false,
    }
}

#[test]
fn lines_and_words(rt: HostRuntime) {
    let (line, rest) = first_line(b"a bc#d\nend");
    for (case, holds) in [
        ("the first line", same(line, b"a bc#d")),
        ("the rest", same(rest, b"end")),
        ("before the comment", same(before_comment(line), b"a bc")),
        ("the words", has_words(b"\ta bc\r", b"a", b"bc")),
        ("a line without words", has_no_words(b" \t\r")),
    ] {
        assert!(rt; holds, "{case}");
    }
}
