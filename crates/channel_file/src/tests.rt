//! Lists of channels and metadata, with their faults.
use crate::{Channel, ChannelFail, ChannelList, Field, read_channels, read_metadata};
use child_ports::{Fingerprint, Text};
use object_frames::Id;
use sexp_reader::SexpFail;
use std::alloc::{AllocError, Global};
use std::process::Abort;
use std::test::Fail;

const GUIX: &str = "(list (channel
        (name 'guix)
        (url \"https://git.savannah.gnu.org/git/guix.git\")
        (branch \"master\")
        (commit \"9edb3f66fd807b096b48283debdcddccfea34bad\")
        (introduction
          (make-channel-introduction
            \"9edb3f66fd807b096b48283debdcddccfea34bad\"
            (openpgp-fingerprint
              \"BBB0 2DDF 2CEA F6A8 0D1D  E643 A2A0 6DF2 A33A 54FA\")))))
";

const GUIX_COMMIT: &str = "9edb3f66fd807b096b48283debdcddccfea34bad";

const GUIX_SIGNER: &str = "BBB02DDF2CEAF6A80D1DE643A2A06DF2A33A54FA";

const COLLECTION: &str = "(channel
 (version 0)
 (dependencies
  (channel
   (name some-collection)
   (url \"https://example.org/first-collection.git\")
   (introduction
    (channel-introduction
     (version 0)
     (commit \"a8883b58dc82e167c96506cf05095f37c2c2c6cd\")
     (signer \"CABB A931 C0FF EEC6 900D  0CFB 090B 1199 3D9A EBB5\"))))))
";

const COLLECTION_COMMIT: &str = "a8883b58dc82e167c96506cf05095f37c2c2c6cd";

const COLLECTION_SIGNER: &str = "CABBA931C0FFEEC6900D0CFB090B11993D9AEBB5";

// A fault, as a table has it.
#[derive(Clone, Copy, Debug)]
enum Want {
    Sexp(SexpFail),
    Evaluates(&'static str),
    Shape(Field),
    Version(u64),
    Name(u64),
    Twice(&'static str),
}

// Whether the fault is the one of the table.
fn is_wanted(fail: &ChannelFail, want: Want) -> bool {
    match fail {
        ChannelFail::Sexp(fail) => matches!(want, Want::Sexp(other) if *fail == other),
        ChannelFail::Evaluates(symbol) =>
            matches!(want, Want::Evaluates(s) if symbol.as_str() == s),
        ChannelFail::Shape(field) => matches!(want, Want::Shape(other) if *field == other),
        ChannelFail::Version(n) => matches!(want, Want::Version(other) if *n == other),
        ChannelFail::Name(n) => matches!(want, Want::Name(other) if *n == other),
        ChannelFail::Twice(name) => matches!(want, Want::Twice(s) if name.as_str() == s),
        ChannelFail::Memory => false,
    }
}

// Whether the bytes are no list of channels, for this reason.
fn is_no_list(alloc: Global, bytes: &[u8], want: &Want) -> bool {
    match read_channels(alloc, bytes) {
        Err(fail) => is_wanted(&fail, *want),
        Ok(_) => false,
    }
}

// Whether the bytes are no metadata, for this reason.
fn is_no_metadata(alloc: Global, bytes: &[u8], want: &Want) -> bool {
    match read_metadata(alloc, bytes) {
        Err(fail) => is_wanted(&fail, *want),
        Ok(_) => false,
    }
}

// The three parts, one after another.
fn joined(alloc: Global, before: &str, part: &str, after: &str) -> Result<Text, AllocError> {
    let mut text = Text::new(alloc);
    text.push(before)?;
    text.push(part)?;
    text.push(after)?;
    Ok(text)
}

// So many letters.
fn letters(alloc: Global, count: usize) -> Result<Text, AllocError> {
    let mut text = Text::new(alloc);
    for _ in 0..count {
        text.push("a")?;
    }
    Ok(text)
}

// So many channels of different names, and then these.
fn numbered(alloc: Global, count: usize, further: &str) -> Result<Text, AllocError> {
    let mut text = Text::new(alloc);
    text.push("(list")?;
    for number in 0..count {
        let channel = format!(in alloc; "(channel (name 'c{number}) (url \"u\"))")?;
        text.push(channel.as_str())?;
    }
    text.push(further)?;
    text.push(")")?;
    Ok(text)
}

// Whether the channel has these parts.
fn has_parts(channel: &Channel, name: &str, url: &str, branch: &str) -> bool {
    channel.name.as_str() == name
        && channel.url.as_str() == url
        && channel.branch.as_str() == branch
}

// Whether the channel is introduced by this commit and this signer.
fn is_introduced(channel: &Channel, commit: &str, signer: &str) -> bool {
    match channel.introduction {
        Some(introduction) => {
            Id::of_hex(commit.as_bytes()) == Some(introduction.commit)
                && Fingerprint::of_text(signer) == Some(introduction.signer)
        }
        None => false,
    }
}

#[test]
fn the_list_that_guix_describe_writes_is_one_channel(rt: HostRuntime) {
    match read_channels(rt.alloc(), GUIX.as_bytes()) {
        Ok(channels) => match channels.as_slice() {
            [channel] => {
                let url = "https://git.savannah.gnu.org/git/guix.git";
                assert!(rt; has_parts(channel, "guix", url, "master"));
                assert!(rt; channel.commit == Id::of_hex(GUIX_COMMIT.as_bytes()));
                assert!(rt; is_introduced(channel, GUIX_COMMIT, GUIX_SIGNER));
            }
            _ => panic!(rt; "another number of channels"),
        },
        Err(fail) => panic!(rt; "{fail:?}"),
    }
}

#[test]
fn a_channel_needs_a_name_and_an_address(rt: HostRuntime) {
    match read_channels(rt.alloc(), b"(list (channel (url \"u\") (name 'b)) ) x") {
        Ok(channels) => match channels.as_slice() {
            [channel] => {
                assert!(rt; has_parts(channel, "b", "u", "master"));
                assert!(rt; channel.commit == None && channel.introduction == None);
            }
            _ => panic!(rt; "another number of channels"),
        },
        Err(fail) => panic!(rt; "{fail:?}"),
    }
}

// Texts that are no list, and why.
static EVALUATED: [(&str, Want); 15] = [
    ("%default-channels", Want::Evaluates("%default-channels")),
    (
        "(cons (channel) %default-channels)",
        Want::Evaluates("cons"),
    ),
    ("(modify-services x)", Want::Evaluates("modify-services")),
    (
        "(list %default-channels)",
        Want::Evaluates("%default-channels"),
    ),
    ("(list (modify x))", Want::Evaluates("modify")),
    ("list", Want::Evaluates("list")),
    ("'()", Want::Evaluates("quote")),
    ("", Want::Shape(Field::Channel)),
    ("\"list\"", Want::Shape(Field::Channel)),
    ("7", Want::Shape(Field::Channel)),
    ("()", Want::Shape(Field::Channel)),
    ("((list))", Want::Shape(Field::Channel)),
    ("(list 7)", Want::Shape(Field::Channel)),
    ("(list ())", Want::Shape(Field::Channel)),
    ("(list (channel)", Want::Sexp(SexpFail::Open(15))),
];

#[test]
fn what_would_be_evaluated_is_refused_by_name(rt: HostRuntime) {
    for (text, want) in &EVALUATED {
        assert!(rt; is_no_list(rt.alloc(), text.as_bytes(), want), "at {text}");
    }
}

const FIRST: &str = "(list (channel (name 'a) (url \"u\")) (channel (url \"u\")";

// The fields of the second channel, whose address is given already, and its fault.
static SECONDS: [(&str, Want); 18] = [
    ("", Want::Name(1)),
    ("(name 'b) (url \"v\")", Want::Shape(Field::Channel)),
    ("(name 'b) (name (f))", Want::Shape(Field::Channel)),
    ("(colour \"red\")", Want::Shape(Field::Channel)),
    ("(branch)", Want::Shape(Field::Channel)),
    ("(branch \"a\" \"b\")", Want::Shape(Field::Channel)),
    ("branch", Want::Shape(Field::Channel)),
    ("(name b)", Want::Name(1)),
    ("(name \"b\")", Want::Name(1)),
    ("(name '\"b\")", Want::Name(1)),
    ("(name (symbol \"b\"))", Want::Evaluates("symbol")),
    ("(branch (f))", Want::Evaluates("f")),
    ("(branch '\"b\")", Want::Evaluates("quote")),
    ("(branch ())", Want::Shape(Field::Branch)),
    ("(branch \"a\\tb\")", Want::Shape(Field::Branch)),
    ("(commit \"9edb\") (name b)", Want::Shape(Field::Commit)),
    ("(introduction (f))", Want::Evaluates("f")),
    (
        "(introduction (make-channel-introduction \"9edb\"))",
        Want::Shape(Field::Introduction),
    ),
];

#[test]
fn the_first_element_at_fault_comes_before_what_is_absent(rt: HostRuntime) -> Result<(), Fail> {
    for (fields, want) in &SECONDS {
        let text = joined(rt.alloc(), FIRST, fields, "))")?;
        assert!(rt;
            is_no_list(rt.alloc(), text.as_str().as_bytes(), want),
            "at {fields}"
        );
    }
    let want = &Want::Shape(Field::Url);
    assert!(rt; is_no_list(rt.alloc(), b"(list (channel (name 'a)))", want));
    Ok(())
}

// The answer to a channel of this name, address and branch.
fn read_one(
    alloc: Global,
    name: &str,
    url: &str,
    branch: &str,
) -> Result<ChannelList, ChannelFail> {
    let head = joined(alloc, "(list (channel (name '", name, ") (url \"")?;
    let middle = joined(alloc, url, "\") (branch \"", branch)?;
    let text = joined(alloc, head.as_str(), middle.as_str(), "\")))")?;
    read_channels(alloc, text.as_str().as_bytes())
}

// Whether there is a channel of this name.
fn is_name(alloc: Global, name: &str) -> bool {
    read_one(alloc, name, "u", "b").is_ok()
}

#[test]
fn a_name_is_1_to_64_letters_digits_and_marks(rt: HostRuntime) -> Result<(), Fail> {
    let alloc = rt.alloc();
    for name in ["-a", "_", "a/b", "a:b", "caf\u{e9}"] {
        assert!(rt; !is_name(alloc, name), "at {name}");
    }
    assert!(rt; is_name(alloc, "a") && is_name(alloc, "9-_+."));
    let longest = letters(alloc, 64)?;
    let longer = letters(alloc, 65)?;
    assert!(rt; is_name(alloc, longest.as_str()) && !is_name(alloc, longer.as_str()));
    Ok(())
}

// The lengths of an address and of a branch, and whether both fit.
static LENGTHS: [(usize, usize, bool); 5] = [
    (0, 1, false),
    (1, 0, false),
    (4096, 900, true),
    (4097, 1, false),
    (1, 901, false),
];

#[test]
fn an_address_has_4096_bytes_and_a_branch_900(rt: HostRuntime) -> Result<(), Fail> {
    for (url, branch, fit) in &LENGTHS {
        let address = letters(rt.alloc(), *url)?;
        let name = letters(rt.alloc(), *branch)?;
        let answer = read_one(rt.alloc(), "a", address.as_str(), name.as_str());
        assert!(rt; answer.is_ok() == *fit, "of {url} and {branch}");
    }
    Ok(())
}

// How many channels of different names come first, the channels behind them, and the fault.
static NUMBERED: [(usize, &str, Want); 4] = [
    (257, "", Want::Shape(Field::Channel)),
    (
        256,
        "(channel (name 'c0) (url \"u\"))",
        Want::Shape(Field::Channel),
    ),
    (256, "(channel (name c0) (url \"u\"))", Want::Name(256)),
    (
        3,
        "(channel (name 'c1) (url \"u\")) (channel (name 'c0) (url \"u\"))",
        Want::Twice("c1"),
    ),
];

#[test]
fn there_are_at_most_256_channels_of_different_names(rt: HostRuntime) -> Result<(), Fail> {
    for (count, further, want) in &NUMBERED {
        let text = numbered(rt.alloc(), *count, further)?;
        assert!(rt;
            is_no_list(rt.alloc(), text.as_str().as_bytes(), want),
            "at {count}{further}"
        );
    }
    Ok(())
}

#[test]
fn a_list_has_0_to_256_channels(rt: HostRuntime) -> Result<(), Fail> {
    for count in [0, 256] {
        let text = numbered(rt.alloc(), count, "")?;
        let channels = read_channels(rt.alloc(), text.as_str().as_bytes());
        assert!(rt;
            matches!(&channels, Ok(list) if list.len() == count),
            "at {count}"
        );
    }
    Ok(())
}

#[test]
fn the_metadata_of_the_manual_has_one_dependency(rt: HostRuntime) {
    match read_metadata(rt.alloc(), COLLECTION.as_bytes()) {
        Ok(metadata) => match metadata.dependencies.as_slice() {
            [channel] => {
                let url = "https://example.org/first-collection.git";
                assert!(rt; has_parts(channel, "some-collection", url, "master"));
                assert!(rt; channel.commit == None);
                assert!(rt; is_introduced(channel, COLLECTION_COMMIT, COLLECTION_SIGNER));
            }
            _ => panic!(rt; "another number of dependencies"),
        },
        Err(fail) => panic!(rt; "{fail:?}"),
    }
}

// Whether a property is this text.
fn is_text(property: &Option<Text>, want: &str) -> bool {
    match property {
        Some(text) => text.as_str() == want,
        None => false,
    }
}

#[test]
fn of_properties_of_one_name_the_first_counts(rt: HostRuntime) {
    let text = "(channel (version 0) (news-file \"n\") 7 (directory \"d\") (directory 7) (colour)
        (keyring-reference \"k\") (url \"u\"))";
    match read_metadata(rt.alloc(), text.as_bytes()) {
        Ok(metadata) => {
            assert!(rt; is_text(&metadata.directory, "d"));
            assert!(rt; is_text(&metadata.url, "u"));
            assert!(rt; is_text(&metadata.keyring_reference, "k"));
            assert!(rt; is_text(&metadata.news_file, "n"));
            assert!(rt; metadata.dependencies.len() == 0);
        }
        Err(fail) => panic!(rt; "{fail:?}"),
    }
}

// Texts that are no metadata, and why.
static METADATA: [(&str, Want); 12] = [
    ("", Want::Shape(Field::Channel)),
    ("channel", Want::Shape(Field::Channel)),
    ("(list)", Want::Shape(Field::Channel)),
    ("(channel)", Want::Shape(Field::Channel)),
    ("(channel (version \"0\"))", Want::Shape(Field::Channel)),
    ("(channel (version 1))", Want::Version(1)),
    (
        "(channel (version 0) (directory))",
        Want::Shape(Field::Directory),
    ),
    (
        "(channel (version 0) (news-file 7) (url \"\"))",
        Want::Shape(Field::Url),
    ),
    (
        "(channel (version 0) (news-file \"a\" \"b\"))",
        Want::Shape(Field::NewsFile),
    ),
    (
        "(channel (version 0) (keyring-reference \"\"))",
        Want::Shape(Field::KeyringReference),
    ),
    (
        "(channel (version 0) (dependencies 7))",
        Want::Shape(Field::Dependencies),
    ),
    ("(channel (version 0)", Want::Sexp(SexpFail::Open(20))),
];

#[test]
fn metadata_has_one_fault(rt: HostRuntime) {
    for (text, want) in &METADATA {
        assert!(rt;
            is_no_metadata(rt.alloc(), text.as_bytes(), want),
            "at {text}"
        );
    }
}

const FIRST_DEPENDENCY: &str =
    "(channel (version 0) (dependencies (channel (name a) (url \"u\")) (channel ";

// The fields of the second dependency, and its fault.
static DEPENDENCIES: [(&str, Want); 10] = [
    ("(url \"u\")", Want::Name(1)),
    ("(name 'b) (url 7)", Want::Shape(Field::Name)),
    ("(name) (url \"u\")", Want::Shape(Field::Name)),
    ("(name -b) (url 7)", Want::Name(1)),
    ("(commit 7) (name b)", Want::Shape(Field::Url)),
    (
        "(name b) (url \"u\") (branch 7)",
        Want::Shape(Field::Branch),
    ),
    (
        "(name b) (url \"u\") (commit (f))",
        Want::Shape(Field::Commit),
    ),
    (
        "(name b) (url \"u\") (introduction (f))",
        Want::Shape(Field::Introduction),
    ),
    (
        "(name b) (url \"u\") (introduction (channel-introduction (version 1)))",
        Want::Version(1),
    ),
    (
        "(name b) (url \"u\") (introduction (channel-introduction (version 0)))",
        Want::Shape(Field::Introduction),
    ),
];

#[test]
fn a_dependency_is_judged_field_by_field(rt: HostRuntime) -> Result<(), Fail> {
    for (fields, want) in &DEPENDENCIES {
        let text = joined(rt.alloc(), FIRST_DEPENDENCY, fields, ")))")?;
        assert!(rt;
            is_no_metadata(rt.alloc(), text.as_str().as_bytes(), want),
            "at {fields}"
        );
    }
    Ok(())
}

#[test]
fn dependencies_may_have_one_name(rt: HostRuntime) {
    let text = "(channel (version 0) (dependencies
        (channel (name a) (url \"u\") (colour) (name 7))
        (channel (url \"v\") (branch \"b\") (name a))))";
    match read_metadata(rt.alloc(), text.as_bytes()) {
        Ok(metadata) => match metadata.dependencies.as_slice() {
            [first, second] => {
                assert!(rt; has_parts(first, "a", "u", "master"));
                assert!(rt; has_parts(second, "a", "v", "b"));
            }
            _ => panic!(rt; "another number of dependencies"),
        },
        Err(fail) => panic!(rt; "{fail:?}"),
    }
}
