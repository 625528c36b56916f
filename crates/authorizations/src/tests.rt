//! Files of authorisations with their keys and faults, and what two sets of keys have in common.
use crate::{AuthFail, Fingerprint, KeySet, meet, read_authorizations};
use child_ports::Bytes;
use sexp_reader::SexpFail;
use std::alloc::{AllocError, Global};
use std::process::Abort;
use std::test::Fail;

const FIRST: &str = "AD17 A21E F8AE D8F1 CC02  DBD9 F7D5 A7A7 D0E1 0B0C";

const FIRST_KEY: Fingerprint = Fingerprint([
    0xAD, 0x17, 0xA2, 0x1E, 0xF8, 0xAE, 0xD8, 0xF1, 0xCC, 0x02, 0xDB, 0xD9, 0xF7, 0xD5, 0xA7, 0xA7,
    0xD0, 0xE1, 0x0B, 0x0C,
]);

const SECOND: &str = "bbb02ddf2ceaf6a80d1de643a2a06df2a33a54fa";

const SECOND_KEY: Fingerprint = Fingerprint([
    0xBB, 0xB0, 0x2D, 0xDF, 0x2C, 0xEA, 0xF6, 0xA8, 0x0D, 0x1D, 0xE6, 0x43, 0xA2, 0xA0, 0x6D, 0xF2,
    0xA3, 0x3A, 0x54, 0xFA,
]);

// The bytes are no file of authorisations, for this reason.
fn expect_fault(rt: &(impl Abort + AllocGlobal), bytes: &[u8], want: AuthFail) {
    match read_authorizations(rt.alloc(), bytes) {
        Err(fail) => assert_eq!(rt; fail, want, "at {bytes:?}"),
        Ok(_) => panic!(rt; "no fault at {bytes:?}"),
    }
}

// A file of authorisations with these entries.
fn file_of(alloc: Global, entries: &[&str]) -> Result<Bytes, AllocError> {
    let mut bytes = Bytes::from_slice(alloc, b"; keys\n(authorizations (version 0) (")?;
    for entry in entries {
        bytes.extend(b"(\"")?;
        bytes.extend(entry.as_bytes())?;
        bytes.extend("\" (name \"Ludovic Courtès\"))\n".as_bytes())?;
    }
    bytes.extend(b") extra) 'x")?;
    Ok(bytes)
}

#[test]
fn a_file_gives_each_of_its_keys_once(rt: HostRuntime) -> Result<(), Fail> {
    // the texts of the entries, and the keys in order
    let rows: [(&[&str], &[Fingerprint]); 4] = [
        (&[], &[]),
        (&[SECOND], &[SECOND_KEY]),
        (&[SECOND, FIRST], &[FIRST_KEY, SECOND_KEY]),
        (&[FIRST, FIRST], &[FIRST_KEY]),
    ];
    for (entries, want) in rows {
        let bytes = file_of(rt.alloc(), entries)?;
        let keys = read_authorizations(rt.alloc(), bytes.as_slice())?;
        assert_eq!(rt; keys.as_slice(), want, "at {entries:?}");
    }
    Ok(())
}

#[test]
fn other_bytes_have_one_fault(rt: HostRuntime) {
    for (text, want) in [
        (
            "(authorizations (version 0) (((\"x\")",
            AuthFail::Sexp(SexpFail::Open(35)),
        ),
        ("", AuthFail::Shape),
        ("'x", AuthFail::Shape),
        ("authorizations", AuthFail::Shape),
        ("(authorizations)", AuthFail::Shape),
        ("(authorization (version 0) ())", AuthFail::Shape),
        ("(\"authorizations\" (version 0) ())", AuthFail::Shape),
        ("(authorizations (versions 0) ())", AuthFail::Shape),
        ("(authorizations (version \"0\") ())", AuthFail::Shape),
        ("(authorizations (version 0 0) ())", AuthFail::Shape),
        ("(authorizations (version 1) ())", AuthFail::Version(1)),
        (
            "(authorizations (version 18446744073709551615))",
            AuthFail::Version(u64::MAX),
        ),
        ("(authorizations (version 0))", AuthFail::Shape),
        ("(authorizations (version 0) x)", AuthFail::Shape),
        ("(authorizations (version 0) (x))", AuthFail::Shape),
        ("(authorizations (version 0) (()))", AuthFail::Shape),
        ("(authorizations (version 0) ((x)))", AuthFail::Shape),
        (
            "(authorizations (version 0) ((\"A0A0\" (name \"x\"))))",
            AuthFail::Fingerprint(0),
        ),
        (
            "(authorizations (version 0) ((\"\") x))",
            AuthFail::Fingerprint(0),
        ),
    ] {
        expect_fault(&rt, text.as_bytes(), want);
    }
    expect_fault(
        &rt,
        b"(authorizations \xff",
        AuthFail::Sexp(SexpFail::NotUtf8(16)),
    );
}

#[test]
fn the_second_entry_is_the_one_at_fault(rt: HostRuntime) -> Result<(), Fail> {
    let bytes = file_of(rt.alloc(), &[FIRST, "A0A0", ""])?;
    expect_fault(&rt, bytes.as_slice(), AuthFail::Fingerprint(1));
    Ok(())
}

#[test]
fn sixty_entries_give_sixty_keys(rt: HostRuntime) -> Result<(), Fail> {
    let mut bytes = Bytes::from_slice(rt.alloc(), b"; sixty\n(authorizations\n (version 0)\n (")?;
    for i in 0..60u8 {
        let mut digits = [0u8; 40];
        Fingerprint([59 - i; 20]).write_hex(&mut digits);
        bytes.extend(b"(\"")?;
        bytes.extend(&digits)?;
        bytes.extend("\" (name \"Ludovic Courtès\")) ; one more\n".as_bytes())?;
    }
    bytes.extend(b"))")?;
    let keys = read_authorizations(rt.alloc(), bytes.as_slice())?;
    assert_eq!(rt; keys.len(), 60);
    for byte in 0..60u8 {
        let want = Fingerprint([byte; 20]);
        assert_eq!(rt; keys.as_slice().get(usize::from(byte)), Some(&want));
    }
    Ok(())
}

// The set of these keys.
fn set_of(alloc: Global, bytes: &[u8]) -> Result<KeySet, AllocError> {
    let mut keys = KeySet::new(alloc);
    for byte in bytes {
        keys.insert(Fingerprint([*byte; 20]))?;
    }
    Ok(keys)
}

#[test]
fn sets_meet_in_the_keys_of_both(rt: HostRuntime) -> Result<(), Fail> {
    // the first bytes of the keys of a set, those of another, and those of both
    let rows: [(&[u8], &[u8], &[u8]); 4] = [
        (&[], &[1], &[]),
        (&[1, 2, 3], &[4, 3, 1], &[1, 3]),
        (&[7], &[7], &[7]),
        (&[1, 2], &[3, 4], &[]),
    ];
    for (a, b, both) in rows {
        let (a, b) = (set_of(rt.alloc(), a)?, set_of(rt.alloc(), b)?);
        let met = meet(rt.alloc(), &a, &b)?;
        let want = set_of(rt.alloc(), both)?;
        assert_eq!(rt; met.as_slice(), want.as_slice(), "at {both:?}");
    }
    Ok(())
}
