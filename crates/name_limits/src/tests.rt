//! Words, names and keys at their limits.
use super::*;
use child_ports::Text;
use std::alloc::{AllocError, Global};
use std::process::Abort;
use std::test::Fail;

// So many letters.
fn letters(alloc: Global, count: usize) -> Result<Text, AllocError> {
    let mut text = Text::new(alloc);
    for _ in 0..count {
        text.push("a")?;
    }
    Ok(text)
}

#[test]
fn words_paths_references_and_names_keep_their_lengths(rt: HostRuntime) -> Result<(), Fail> {
    // the length, and whether it is that of a word, a path, a reference and a name that can be asked
    let rows = [
        (0, true, false, false, false),
        (1, true, true, true, true),
        (900, true, true, true, true),
        (901, true, true, false, true),
        (1024, true, true, false, true),
        (1025, true, true, false, false),
        (4096, true, true, false, false),
        (4097, false, true, false, false),
    ];
    for (count, word, path, reference, askable) in rows {
        let text = letters(rt.alloc(), count)?;
        let text = text.as_str();
        assert_eq!(rt; is_word(text), word, "a word of {count}");
        assert_eq!(rt; is_path(text), path, "a path of {count}");
        assert_eq!(rt; is_reference(text), reference, "a reference of {count}");
        assert_eq!(rt; is_askable(text.as_bytes()), askable, "a name of {count}");
    }
    Ok(())
}

#[test]
fn a_byte_below_32_and_127_are_not_plain(rt: HostRuntime) {
    let rows: [(&[u8], bool); 5] = [
        (b"a~ \xff", true),
        (b"", true),
        (b"a\x1f", false),
        (b"\x7fa", false),
        (b"a\nb", false),
    ];
    for (bytes, plain) in rows {
        assert_eq!(rt; are_plain(bytes), plain);
    }
}

#[test]
fn keys_have_whole_parts_of_stated_bytes(rt: HostRuntime) {
    let rows = [
        ("git-0a", true),
        ("channels/guix", true),
        ("a_B+9.x", true),
        ("deployed", true),
        ("", false),
        ("a//b", false),
        ("/a", false),
        ("a/", false),
        ("./a", false),
        ("a/..", false),
        ("a/...", true),
        ("a b", false),
        ("a%b", false),
        ("deployed/guix", false),
    ];
    for (key, fits) in rows {
        assert_eq!(rt; is_cache_key(key), fits, "at {key}");
    }
}

#[test]
fn a_key_has_at_most_200_bytes(rt: HostRuntime) -> Result<(), Fail> {
    for (count, fits) in [(200, true), (201, false)] {
        let key = letters(rt.alloc(), count)?;
        assert_eq!(rt; is_cache_key(key.as_str()), fits, "of {count}");
    }
    Ok(())
}
