//! Worked key files, to the byte.
use crate::{KeyFail, dearmor, fingerprints};
use child_ports::{Bytes, Fingerprint};
use std::alloc::{AllocError, Global};
use std::test::Fail;

const BEGIN: &str = "-----BEGIN PGP PUBLIC KEY BLOCK-----";

const END: &str = "-----END PGP PUBLIC KEY BLOCK-----";

// A version 4 key, and its fingerprint: SHA-1 of 99 00 07 04 00 00 00 00 01 61.
const KEY: &[u8] = b"\x98\x07\x04\0\0\0\0\x01a";

const KEY_PRINT: Fingerprint = Fingerprint([
    0xB4, 0x75, 0x4D, 0xB4, 0x7B, 0x6A, 0x4B, 0xC3, 0xDC, 0xFF, 0xB1, 0x8A, 0x94, 0x80, 0xFD, 0x26,
    0x7E, 0x05, 0x84, 0x8C,
]);

// A key of the curve Ed25519 with a subkey, as GnuPG 2.2 exports it, and the fingerprints that it prints.
const EXPORTED: &[u8] = &[
    0x98, 0x33, 0x04, 0x6b, 0x0e, 0x32, 0xfd, 0x16, 0x09, 0x2b, 0x06, 0x01, 0x04, 0x01, 0xda, 0x47,
    0x0f, 0x01, 0x01, 0x07, 0x40, 0x02, 0x7e, 0x79, 0x46, 0x18, 0xc8, 0xf0, 0x4d, 0x04, 0xfc, 0xef,
    0x24, 0xf8, 0x41, 0x07, 0x3c, 0xd2, 0x67, 0x83, 0x5d, 0xec, 0x82, 0x1a, 0x05, 0xbf, 0x1a, 0x16,
    0x99, 0x36, 0x8f, 0x16, 0x1b, 0xb4, 0x01, 0x61, 0x88, 0x90, 0x04, 0x13, 0x16, 0x08, 0x00, 0x38,
    0x16, 0x21, 0x04, 0x66, 0x47, 0x07, 0xce, 0xa7, 0xa3, 0x21, 0xaa, 0x60, 0x69, 0x2b, 0xf6, 0x8b,
    0xc3, 0xfb, 0xcf, 0x9f, 0x9f, 0x7c, 0x74, 0x05, 0x02, 0x6b, 0x0e, 0x32, 0xfd, 0x02, 0x1b, 0x03,
    0x05, 0x0b, 0x09, 0x08, 0x07, 0x02, 0x06, 0x15, 0x0a, 0x09, 0x08, 0x0b, 0x02, 0x04, 0x16, 0x02,
    0x03, 0x01, 0x02, 0x1e, 0x01, 0x02, 0x17, 0x80, 0x00, 0x0a, 0x09, 0x10, 0x8b, 0xc3, 0xfb, 0xcf,
    0x9f, 0x9f, 0x7c, 0x74, 0x38, 0xce, 0x01, 0x00, 0x9a, 0xf7, 0x6e, 0xe5, 0x1b, 0x3d, 0xed, 0xee,
    0x75, 0x2f, 0xfb, 0x04, 0xce, 0x2c, 0xed, 0xf3, 0x36, 0xfa, 0x70, 0x49, 0x04, 0xb2, 0x25, 0x1c,
    0xa5, 0x87, 0xa9, 0x6c, 0x13, 0x79, 0x3f, 0x06, 0x00, 0xff, 0x43, 0x41, 0x73, 0x59, 0xcc, 0x72,
    0xe6, 0x74, 0x4f, 0xa0, 0x0c, 0x0f, 0x41, 0x53, 0xc0, 0x41, 0x03, 0x02, 0xff, 0x5c, 0x24, 0x83,
    0x0c, 0x46, 0xec, 0x22, 0x52, 0xc0, 0xdf, 0x67, 0xba, 0x07, 0xb8, 0x38, 0x04, 0x6b, 0x0e, 0x32,
    0xfd, 0x12, 0x0a, 0x2b, 0x06, 0x01, 0x04, 0x01, 0x97, 0x55, 0x01, 0x05, 0x01, 0x01, 0x07, 0x40,
    0xe1, 0x04, 0xea, 0x2e, 0xe6, 0x8d, 0x31, 0xf6, 0x68, 0xd4, 0x48, 0x30, 0x91, 0x2c, 0xbf, 0x39,
    0xd1, 0x9f, 0x15, 0xc3, 0xbc, 0x32, 0xc4, 0x0a, 0xf3, 0xe6, 0xfe, 0x28, 0x8a, 0x89, 0x35, 0x65,
    0x03, 0x01, 0x08, 0x07, 0x88, 0x78, 0x04, 0x18, 0x16, 0x08, 0x00, 0x20, 0x16, 0x21, 0x04, 0x66,
    0x47, 0x07, 0xce, 0xa7, 0xa3, 0x21, 0xaa, 0x60, 0x69, 0x2b, 0xf6, 0x8b, 0xc3, 0xfb, 0xcf, 0x9f,
    0x9f, 0x7c, 0x74, 0x05, 0x02, 0x6b, 0x0e, 0x32, 0xfd, 0x02, 0x1b, 0x0c, 0x00, 0x0a, 0x09, 0x10,
    0x8b, 0xc3, 0xfb, 0xcf, 0x9f, 0x9f, 0x7c, 0x74, 0x16, 0x08, 0x01, 0x00, 0xd2, 0x07, 0x7d, 0xee,
    0xd0, 0xe5, 0x05, 0x29, 0x6b, 0x9a, 0x57, 0x9c, 0x0d, 0x20, 0x0e, 0x43, 0x74, 0x48, 0x9c, 0x21,
    0x26, 0xf2, 0x97, 0x79, 0x2a, 0x0b, 0xf7, 0x52, 0x02, 0x2a, 0x02, 0x30, 0x01, 0x00, 0x8e, 0x6a,
    0x9f, 0x24, 0xdb, 0xe6, 0x2b, 0xa3, 0xfa, 0xba, 0x1d, 0xbc, 0x68, 0xea, 0x92, 0x16, 0x75, 0x91,
    0x82, 0xdf, 0xb9, 0x98, 0x81, 0x76, 0x34, 0xb5, 0xe0, 0xae, 0x5e, 0x72, 0x51, 0x0f,
];

const EXPORTED_LINES: &[&str] = &[
    "-----BEGIN PGP PUBLIC KEY BLOCK-----",
    "",
    "mDMEaw4y/RYJKwYBBAHaRw8BAQdAAn55RhjI8E0E/O8k+EEHPNJng13sghoFvxoW",
    "mTaPFhu0AWGIkAQTFggAOBYhBGZHB86noyGqYGkr9ovD+8+fn3x0BQJrDjL9AhsD",
    "BQsJCAcCBhUKCQgLAgQWAgMBAh4BAheAAAoJEIvD+8+fn3x0OM4BAJr3buUbPe3u",
    "dS/7BM4s7fM2+nBJBLIlHKWHqWwTeT8GAP9DQXNZzHLmdE+gDA9BU8BBAwL/XCSD",
    "DEbsIlLA32e6B7g4BGsOMv0SCisGAQQBl1UBBQEBB0DhBOou5o0x9mjUSDCRLL85",
    "0Z8Vw7wyxArz5v4oiok1ZQMBCAeIeAQYFggAIBYhBGZHB86noyGqYGkr9ovD+8+f",
    "n3x0BQJrDjL9AhsMAAoJEIvD+8+fn3x0FggBANIHfe7Q5QUpa5pXnA0gDkN0SJwh",
    "JvKXeSoL91ICKgIwAQCOap8k2+Yro/q6Hbxo6pIWdZGC37mYgXY0teCuXnJRDw==",
    "=EDTB",
    "-----END PGP PUBLIC KEY BLOCK-----",
];

const PRINTS: [Fingerprint; 2] = [
    Fingerprint([
        0x66, 0x47, 0x07, 0xCE, 0xA7, 0xA3, 0x21, 0xAA, 0x60, 0x69, 0x2B, 0xF6, 0x8B, 0xC3, 0xFB,
        0xCF, 0x9F, 0x9F, 0x7C, 0x74,
    ]),
    Fingerprint([
        0x8D, 0x2A, 0xFE, 0x6B, 0xF9, 0xCD, 0xA8, 0x7D, 0x1D, 0xEA, 0x6F, 0x45, 0x19, 0x30, 0xB4,
        0x29, 0xC5, 0xBC, 0xB4, 0x26,
    ]),
];

// A text of lines, each with this end.
fn text(alloc: Global, lines: &[&str], end: &str) -> Result<Bytes, AllocError> {
    let mut text = Bytes::new(alloc);
    for line in lines {
        text.extend(line.as_bytes())?;
        text.extend(end.as_bytes())?;
    }
    Ok(text)
}

// The bytes of some parts.
fn joined(alloc: Global, parts: &[&[u8]]) -> Result<Bytes, AllocError> {
    let mut bytes = Bytes::new(alloc);
    for part in parts {
        bytes.extend(part)?;
    }
    Ok(bytes)
}

// Whether the bytes hold these in armour, or are these without.
fn is_dearmored(alloc: Global, bytes: &[u8], want: &[u8]) -> bool {
    match dearmor(alloc, bytes) {
        Ok(bytes) => bytes.as_slice() == want,
        Err(_) => false,
    }
}

// Whether the lines, with each end, hold these bytes.
fn are_dearmored(alloc: Global, lines: &[&str], want: &[u8]) -> Result<bool, AllocError> {
    for end in ["\n", "\r\n", " \t\r \n"] {
        let armoured = text(alloc, lines, end)?;
        if !is_dearmored(alloc, armoured.as_slice(), want) {
            return Ok(false);
        }
    }
    Ok(true)
}

#[test]
fn armour_is_taken_off(rt: HostRuntime) -> Result<(), Fail> {
    let alloc = rt.alloc();
    // the lines, and what they hold
    let cases: &[(&[&str], &[u8])] = &[
        (&[BEGIN, "", "mAcEAAAAAAFh", "=/CEH", END], KEY),
        (&[BEGIN, "", "mAcEAAAAAAFh", "=AAAA", END], KEY),
        (&[BEGIN, "", "mAcEAAAAAAFh", END], KEY),
        (&[BEGIN, "Hash: x", "x", "", "mAcE", "AAAAAAFh", END], KEY),
        (&[BEGIN, BEGIN, END, "", "mAcEAAAAAAFh", END], KEY),
        (&[BEGIN, "", "", "mAcE", "", "AAAAAAFh", "=", END], KEY),
        (&["x", BEGIN, "", "mAcEAAAAAAFh", END, "", "x"], KEY),
        (
            &[BEGIN, "", "mAcEAA==", END, BEGIN, "", "AAAAAWE=", END],
            KEY,
        ),
        (&[BEGIN, "", "mAc=", END], b"\x98\x07"),
        (&[BEGIN, "", END], b""),
        (&["x", END, ""], b""),
        (&[" -----BEGIN PGP PUBLIC KEY BLOCK-----"], b""),
        (&["-----BEGIN PGP PUBLIC KEY BLOCK----- x"], b""),
    ];
    for (place, (lines, want)) in cases.iter().enumerate() {
        assert!(rt; are_dearmored(alloc, lines, want)?, "case {place}");
    }
    Ok(())
}

// Whether the block that begins in this line is the first at fault.
fn is_block_at_fault(alloc: Global, lines: &[&str], want: u64) -> Result<bool, AllocError> {
    let armoured = text(alloc, lines, "\n")?;
    match dearmor(alloc, armoured.as_slice()) {
        Ok(_) => Ok(false),
        Err(fail) => Ok(fail == KeyFail::Armor(want)),
    }
}

#[test]
fn the_first_block_at_fault_is_told(rt: HostRuntime) -> Result<(), Fail> {
    let alloc = rt.alloc();
    // the lines, and the number of the BEGIN line
    let cases: &[(&[&str], u64)] = &[
        (&[BEGIN], 1),
        (&[BEGIN, "", "mAcE"], 1),
        (&[BEGIN, "", "mAcE", "=AAAA"], 1),
        (&["x", BEGIN, "mAcE", END], 2),
        (&["x", "", BEGIN, "", "mAcE", "=AAAA", "", END], 3),
        (&[BEGIN, "", "mAcE", "=AAAA", "=AAAA", END], 1),
        (&[BEGIN, "", "mAcE", "-x", END], 1),
        (&[BEGIN, "", "mAcE", "=AAAA", "AAAA", END], 1),
        (&[BEGIN, "", "mAc", END], 1),
        (&[BEGIN, "", "mAd=", END], 1),
        (&[BEGIN, "", "mA cE", END], 1),
        (&[BEGIN, "", "mAcE", END, "x", BEGIN, "", "mA", END], 6),
    ];
    for (place, (lines, want)) in cases.iter().enumerate() {
        assert!(rt; is_block_at_fault(alloc, lines, *want)?, "case {place}");
    }
    Ok(())
}

// Whether the file has the keys of these fingerprints.
fn has_keys(alloc: Global, file: &[u8], want: &[Fingerprint]) -> bool {
    match fingerprints(alloc, file) {
        Ok(keys) => keys.as_slice() == want,
        Err(_) => false,
    }
}

// Whether the file has no keys, for this reason.
fn has_fault(alloc: Global, file: &[u8], want: KeyFail) -> bool {
    match fingerprints(alloc, file) {
        Ok(_) => false,
        Err(fail) => fail == want,
    }
}

#[test]
fn a_key_has_its_fingerprint_under_each_header(rt: HostRuntime) -> Result<(), Fail> {
    let alloc = rt.alloc();
    let headers: &[&[u8]] = &[
        b"\x98\x07",
        b"\x99\0\x07",
        b"\x9A\0\0\0\x07",
        b"\xB8\x07",
        b"\xC6\x07",
        b"\xC6\xFF\0\0\0\x07",
        b"\xCE\x07",
        // another packet before it
        b"\xB4\x01x\xC6\x07",
    ];
    for (place, header) in headers.iter().enumerate() {
        let file = joined(alloc, &[header, &KEY[2..]])?;
        assert!(rt;
            has_keys(alloc, file.as_slice(), &[KEY_PRINT]),
            "case {place}"
        );
    }
    Ok(())
}

#[test]
fn the_first_packet_at_fault_is_told(rt: HostRuntime) -> Result<(), Fail> {
    let alloc = rt.alloc();
    let cases: &[(&[u8], &[u8], KeyFail)] = &[
        (b"\x98\x07\x04", b"", KeyFail::Length(0)),
        (b"\x98", b"", KeyFail::Length(0)),
        (b"\x99\0", b"", KeyFail::Length(0)),
        (b"\x9B\x04", b"", KeyFail::Length(0)),
        (b"\xC6", b"", KeyFail::Length(0)),
        (b"\xC6\xC0", b"", KeyFail::Length(0)),
        (b"\xC6\xE0\x04", b"", KeyFail::Length(0)),
        (b"\xC6\xFE\x04", b"", KeyFail::Length(0)),
        (b"\xC6\xFF\0\0\0", b"", KeyFail::Length(0)),
        (b"\x80\0", b"", KeyFail::Packet(0)),
        (b"\xC0\xE0", b"", KeyFail::Packet(0)),
        (KEY, b"\0", KeyFail::Packet(9)),
        (KEY, b"\x98\x07\x04", KeyFail::Length(9)),
        (b"", b"", KeyFail::NoKey),
        (b"\x98\x01\x03", b"", KeyFail::NoKey),
        (b"\x94\x01\x04", b"\xB4\x01\x04", KeyFail::NoKey),
        (b"no armour", b"", KeyFail::NoKey),
    ];
    for (place, (front, back, want)) in cases.iter().enumerate() {
        let file = joined(alloc, &[front, back])?;
        assert!(rt; has_fault(alloc, file.as_slice(), *want), "case {place}");
    }
    Ok(())
}

// A packet of a public key in the old form with four bytes of length, whose body is a 4 and zeros.
fn long_key(alloc: Global, size: u32) -> Result<Vec<u8>, AllocError> {
    let mut file = Vec::from_slice(alloc, b"\x9A")?;
    file.extend_from_slice(&size.to_be_bytes())?;
    file.push(4)?;
    for _ in 1..size {
        file.push(0)?;
    }
    Ok(file)
}

// Whether the file has so many keys.
fn has_count(alloc: Global, file: &[u8], count: usize) -> bool {
    match fingerprints(alloc, file) {
        Ok(keys) => keys.len() == count,
        Err(_) => false,
    }
}

#[test]
fn a_key_is_no_longer_than_two_bytes_say(rt: HostRuntime) -> Result<(), Fail> {
    let alloc = rt.alloc();
    let longest = long_key(alloc, 65_535)?;
    assert!(rt; has_count(alloc, longest.as_slice(), 1));
    let longer = long_key(alloc, 65_536)?;
    assert!(rt; has_fault(alloc, longer.as_slice(), KeyFail::Length(0)));
    Ok(())
}

// A packet of user data with this length of its body, which is zeros, and the key behind it.
fn before_key(alloc: Global, length: &[u8], size: u32) -> Result<Vec<u8>, AllocError> {
    let mut file = Vec::from_slice(alloc, b"\xCD")?;
    file.extend_from_slice(length)?;
    for _ in 0..size {
        file.push(0)?;
    }
    file.extend_from_slice(KEY)?;
    Ok(file)
}

#[test]
fn lengths_of_two_bytes_are_those_of_the_standard(rt: HostRuntime) -> Result<(), Fail> {
    let alloc = rt.alloc();
    // the example of RFC 4880, section 4.2.3, and the least length
    for (length, size) in [(b"\xC5\xFB", 1723), (b"\xC0\0", 192)] {
        let file = before_key(alloc, length, size)?;
        assert!(rt; has_keys(alloc, file.as_slice(), &[KEY_PRINT]), "at {size}");
    }
    Ok(())
}

#[test]
fn an_exported_key_and_its_subkey_are_found_in_armour_or_not(rt: HostRuntime) -> Result<(), Fail> {
    let alloc = rt.alloc();
    let armoured = text(alloc, EXPORTED_LINES, "\n")?;
    for file in [armoured.as_slice(), EXPORTED] {
        assert!(rt; is_dearmored(alloc, file, EXPORTED));
        assert!(rt; has_keys(alloc, file, &PRINTS));
    }
    Ok(())
}
