//! Every text, as a table.
use crate::{list_refusal, set_lines, set_refusal, set_warnings};
use auth_engine::EngineFail;
use auth_rules::Cause;
use channel_deps::{Member, MemberList, Move, SetFail, SetVerdict, Standing};
use channel_file::{ChannelFail, Field};
use child_ports::{Pairs, Text};
use object_frames::Id;
use sexp_reader::SexpFail;
use std::alloc::{AllocError, Global};
use std::test::Fail;

fn one() -> Id {
    Id::of_bytes([1; 20])
}

fn two() -> Id {
    Id::of_bytes([2; 20])
}

fn text(alloc: Global, part: &str) -> Result<Text, AllocError> {
    let mut text = Text::new(alloc);
    text.push(part)?;
    Ok(text)
}

// Whether a file that is no list of channels is told by this text. Bytes below 32 and 127 are shown as question marks.
fn is_list_told(alloc: Global, fail: ChannelFail, want: &str) -> Result<bool, AllocError> {
    let line = list_refusal(alloc, "l\u{1f}\u{7f}é.scm", &fail)?;
    let want = format!(in alloc; "guix-auth: file l??é.scm: {want}\n")?;
    Ok(line.as_slice() == want.as_bytes())
}

// A field of a channel, and what is said where it is bad.
static FIELDS: [(Field, &str); 10] = [
    (Field::Channel, "bad channel"),
    (Field::Name, "bad name"),
    (Field::Url, "bad url"),
    (Field::Branch, "bad branch"),
    (Field::Commit, "bad commit"),
    (Field::Introduction, "bad introduction"),
    (Field::Directory, "bad directory"),
    (Field::KeyringReference, "bad keyring-reference"),
    (Field::NewsFile, "bad news-file"),
    (Field::Dependencies, "bad dependencies"),
];

#[test]
fn a_bad_field_is_told(rt: HostRuntime) -> Result<(), Fail> {
    for (field, want) in &FIELDS {
        assert!(rt;
            is_list_told(rt.alloc(), ChannelFail::Shape(*field), want)?,
            "at {want}"
        );
    }
    Ok(())
}

#[test]
fn a_file_that_is_no_list_of_channels_is_told(rt: HostRuntime) -> Result<(), Fail> {
    let alloc = rt.alloc();
    let open = ChannelFail::Sexp(SexpFail::Open(2));
    assert!(rt; is_list_told(alloc, open, "unfinished at byte 2")?);
    let evaluates = ChannelFail::Evaluates(text(alloc, "le\u{7f}t\té")?);
    assert!(rt; is_list_told(alloc, evaluates, "le?t?é would have to be evaluated")?);
    let version = ChannelFail::Version(1);
    assert!(rt; is_list_told(alloc, version, "version 1 is not supported")?);
    let name = ChannelFail::Name(0);
    assert!(rt; is_list_told(alloc, name, "channel 0 has no valid name")?);
    let twice = ChannelFail::Twice(text(alloc, "guix")?);
    assert!(rt; is_list_told(alloc, twice, "channel guix is listed twice")?);
    assert!(rt; is_list_told(alloc, ChannelFail::Memory, "out of memory")?);
    Ok(())
}

// Whether a set that isn't accepted is told by this line.
fn is_set_told(alloc: Global, fail: SetFail, want: &str) -> Result<bool, AllocError> {
    let line = set_refusal(alloc, &fail)?;
    Ok(line.as_slice() == want.as_bytes())
}

const REFUSED: &str =
    "guix-auth: channel guix: commit 0101010101010101010101010101010101010101 is refused: it is not signed\n";

#[test]
fn a_refused_channel_is_told(rt: HostRuntime) -> Result<(), Fail> {
    let alloc = rt.alloc();
    let name = text(alloc, "guix")?;
    let id = one();
    let cause = Cause::Unsigned;
    let fail = EngineFail::Commit { id, cause };
    assert!(rt; is_set_told(alloc, SetFail::Channel { name, fail }, REFUSED)?);
    Ok(())
}

#[test]
fn bad_metadata_and_a_bad_record_are_told(rt: HostRuntime) -> Result<(), Fail> {
    let alloc = rt.alloc();
    let name = text(alloc, "guix")?;
    let fail = ChannelFail::Shape(Field::Dependencies);
    let metadata = SetFail::Metadata { name, fail };
    let want = "guix-auth: channel guix: .guix-channel: bad dependencies\n";
    assert!(rt; is_set_told(alloc, metadata, want)?);
    let record = SetFail::Record(text(alloc, "a\u{7f}\n")?);
    assert!(rt;
        is_set_told(
            alloc,
            record,
            "guix-auth: channel a??: bad deployed record\n"
        )?
    );
    Ok(())
}

const BACK: &str =
    "guix-auth: channel guix would go back from 0101010101010101010101010101010101010101 to 0202020202020202020202020202020202020202\n";

const UNRELATED: &str =
    "guix-auth: channel guix would move from 0101010101010101010101010101010101010101 to unrelated 0202020202020202020202020202020202020202\n";

const LOST: &str =
    "guix-auth: channel guix: deployed commit 0101010101010101010101010101010101010101 is missing\n";

#[test]
fn a_refused_move_is_told(rt: HostRuntime) -> Result<(), Fail> {
    let alloc = rt.alloc();
    let old = one();
    let new = two();
    let name = text(alloc, "guix")?;
    assert!(rt; is_set_told(alloc, SetFail::Downgrade { name, old, new }, BACK)?);
    let name = text(alloc, "guix")?;
    assert!(rt; is_set_told(alloc, SetFail::UnrelatedMove { name, old, new }, UNRELATED)?);
    let name = text(alloc, "guix")?;
    assert!(rt; is_set_told(alloc, SetFail::DeployedMissing { name, old }, LOST)?);
    Ok(())
}

#[test]
fn a_set_that_is_stopped_is_told(rt: HostRuntime) -> Result<(), Fail> {
    let alloc = rt.alloc();
    let many = "guix-auth: more than 256 channels\n";
    assert!(rt; is_set_told(alloc, SetFail::TooManyChannels, many)?);
    assert!(rt; is_set_told(alloc, SetFail::GitFault, "guix-auth: git failed\n")?);
    assert!(rt; is_set_told(alloc, SetFail::SigFault, "guix-auth: gpgv failed\n")?);
    assert!(rt; is_set_told(alloc, SetFail::KeepFault, "guix-auth: the store failed\n")?);
    assert!(rt; is_set_told(alloc, SetFail::Memory, "guix-auth: out of memory\n")?);
    Ok(())
}

// A set of these members.
fn set_of(alloc: Global, members: MemberList) -> SetVerdict {
    SetVerdict {
        members,
        store: Pairs::new(alloc),
    }
}

// A member that moved and stands so.
fn moved(alloc: Global, name: &str, moved: Move, standing: Standing) -> Result<Member, AllocError> {
    let name = text(alloc, name)?;
    let url = text(alloc, "https://example.org/guix.git")?;
    Ok(Member {
        name,
        target: one(),
        moved,
        standing,
        url,
        primary: None,
        introduced: true,
    })
}

// Members: their name, their move, and how they stand.
static MOVED: [(&str, Move, Standing); 6] = [
    ("a", Move::New, Standing::Authentic),
    ("b", Move::Same, Standing::Older),
    ("c", Move::Forward, Standing::Unchecked),
    ("d", Move::Back, Standing::Authentic),
    ("e", Move::Unrelated, Standing::Older),
    ("f\u{7f}", Move::Lost, Standing::Unchecked),
];

static LINES: &str = "a 0101010101010101010101010101010101010101 new authentic
b 0101010101010101010101010101010101010101 same older
c 0101010101010101010101010101010101010101 forward unchecked
d 0101010101010101010101010101010101010101 back authentic
e 0101010101010101010101010101010101010101 unrelated older
f? 0101010101010101010101010101010101010101 lost unchecked
";

#[test]
fn each_member_has_a_line(rt: HostRuntime) -> Result<(), Fail> {
    let alloc = rt.alloc();
    let mut members = MemberList::new(alloc);
    for (name, how, standing) in &MOVED {
        members.push(moved(alloc, name, *how, *standing)?)?;
    }
    let lines = set_lines(alloc, &set_of(alloc, members))?;
    assert!(rt; lines.as_slice() == LINES.as_bytes());
    Ok(())
}

// A member that is fetched from here, and says that it is fetched from there.
fn fetched(
    alloc: Global,
    name: &str,
    primary: Option<&str>,
    introduced: bool,
) -> Result<Member, AllocError> {
    let primary = match primary {
        Some(url) => Some(text(alloc, url)?),
        None => None,
    };
    let name = text(alloc, name)?;
    let url = text(alloc, "file:///here\t")?;
    Ok(Member {
        name,
        target: one(),
        moved: Move::New,
        standing: Standing::Unchecked,
        url,
        primary,
        introduced,
    })
}

// Members: their name, where they say that they are fetched from, and whether they are introduced.
static FETCHED: [(&str, Option<&str>, bool); 5] = [
    ("mirror", Some("https://there\u{7f}"), true),
    ("bare", None, false),
    ("both", Some("https://there"), false),
    ("none", None, true),
    ("same", Some("file:///here\t"), true),
];

static WARNINGS: &str =
    "guix-auth: warning: channel mirror is fetched from file:///here?, a mirror of https://there?
guix-auth: warning: channel bare has no introduction and is not authenticated
guix-auth: warning: channel both is fetched from file:///here?, a mirror of https://there
guix-auth: warning: channel both has no introduction and is not authenticated
";

#[test]
fn mirrors_and_channels_without_introduction_are_warned_of(rt: HostRuntime) -> Result<(), Fail> {
    let alloc = rt.alloc();
    let mut members = MemberList::new(alloc);
    for (name, primary, introduced) in &FETCHED {
        members.push(fetched(alloc, name, *primary, *introduced)?)?;
    }
    let warnings = set_warnings(alloc, &set_of(alloc, members))?;
    assert!(rt; warnings.as_slice() == WARNINGS.as_bytes());
    Ok(())
}
