//! Texts with their data and faults.
use crate::{Datum, SexpFail, print, read_first};
use std::alloc::Global;
use std::test::Fail;

// Whether what is found in the bytes is no datum, but this.
fn is_faulty(alloc: Global, bytes: &[u8], want: SexpFail) -> bool {
    match read_first(alloc, bytes) {
        Err(fail) => fail == want,
        Ok(_) => false,
    }
}

#[test]
fn a_list_is_read_as_its_data(rt: HostRuntime) -> Result<(), Fail> {
    let Some(datum) = read_first(rt.alloc(), b"(a \"b\" 1)")? else {
        panic!(rt; "no datum");
    };
    let Some([symbol, text, number]) = datum.as_list() else {
        panic!(rt; "no list of three");
    };
    assert!(rt; symbol.as_symbol() == Some("a") && symbol.as_text() == None);
    assert!(rt; text.as_text() == Some("b") && text.as_symbol() == None);
    assert!(rt; number.as_number() == Some(1) && symbol.as_number() == None);
    assert!(rt; symbol.as_list().is_none());
    Ok(())
}

// Texts, and their first datum as it is printed.
static PRINTED: [(&str, &str); 8] = [
    ("(a \"b\" 1)", "(a \"b\" 1)"),
    (
        " ; c\n ( a\"\\\\\\\"\\n\\t\"007 ; d\n() ) e #",
        "(a \"\\\\\\\"\\n\\t\" 7 ())",
    ),
    ("'x", "(quote x)"),
    ("' ;\n(a'b 'c)", "(quote (a'b (quote c)))"),
    ("18446744073709551615", "18446744073709551615"),
    ("(Ludovic \"Courtès\" é+1)", "(Ludovic \"Courtès\" é+1)"),
    ("\"a\nb\"", "\"a\\nb\""),
    ("abc#", "abc"),
];

// Whether the first datum of a text is printed so.
fn is_printed(alloc: Global, text: &str, want: &str) -> Result<bool, Fail> {
    let Some(datum) = read_first(alloc, text.as_bytes())? else {
        return Ok(false);
    };
    let printed = print(alloc, &datum)?;
    Ok(printed.as_slice() == want.as_bytes())
}

#[test]
fn what_was_read_is_printed_in_one_spelling(rt: HostRuntime) -> Result<(), Fail> {
    for (text, want) in &PRINTED {
        assert!(rt; is_printed(rt.alloc(), text, want)?, "at {text}");
    }
    Ok(())
}

#[test]
fn white_space_and_comments_are_no_datum(rt: HostRuntime) -> Result<(), Fail> {
    for text in ["", "; only", " \t\n\u{c}\r;a\n"] {
        let datum = read_first(rt.alloc(), text.as_bytes())?;
        assert!(rt; datum.is_none(), "at {text}");
    }
    Ok(())
}

// Bytes, and their first fault.
static FAULTS: [(&[u8], SexpFail); 14] = [
    (b"(version 18446744073709551616)", SexpFail::Number(9)),
    (b"\"\\q\"", SexpFail::Escape(2)),
    (b"(a", SexpFail::Open(2)),
    (b")", SexpFail::Close(0)),
    (b"\x28\x61\x20\xff\x29", SexpFail::NotUtf8(3)),
    (b"#t", SexpFail::Hash(0)),
    (b"(a . b)", SexpFail::Hash(3)),
    (b"'", SexpFail::Open(1)),
    (b"')", SexpFail::Close(1)),
    (b"\"a", SexpFail::Open(2)),
    (b"(\"a\\", SexpFail::Open(4)),
    (b"(a ' )", SexpFail::Close(5)),
    (b"(a#b)", SexpFail::Hash(2)),
    (b"a\xc3", SexpFail::NotUtf8(1)),
];

#[test]
fn the_first_fault_from_the_left_is_named(rt: HostRuntime) {
    for (bytes, want) in &FAULTS {
        assert!(rt; is_faulty(rt.alloc(), bytes, *want), "at {bytes:?}");
    }
}

#[test]
fn at_most_128_levels_are_open(rt: HostRuntime) -> Result<(), Fail> {
    assert!(rt; is_faulty(rt.alloc(), &[b'('; 128], SexpFail::Open(128)));
    assert!(rt; is_faulty(rt.alloc(), &[b'('; 129], SexpFail::Deep(128)));
    assert!(rt; is_faulty(rt.alloc(), &[b'\''; 129], SexpFail::Deep(128)));
    let many = vec![in rt.alloc(); b'('; 1_048_576]?;
    assert!(rt; is_faulty(rt.alloc(), &many, SexpFail::Deep(128)));
    let mut closed = [b'('; 256];
    closed[128..].fill(b')');
    assert!(rt; read_first(rt.alloc(), &closed)?.is_some());
    Ok(())
}

#[test]
fn a_fault_is_shown_with_its_place(rt: HostRuntime) -> Result<(), Fail> {
    let shown = format!(in rt.alloc(); "{}", SexpFail::Number(9))?;
    assert_eq!(rt; shown.as_str(), "the number at 9 is too large");
    Ok(())
}
