//! The commits of a script.
ghost use Rattle.std.specs.Prelude.{◌≡◌, ◌++◌, ◌∷◌, IfOk, OnOk};
ghost use Rattle.std.specs.List.{flat_map};
ghost use Rattle.commit_objects.specs.Lines.{line, id_line, parent_line, continued};
ghost use Rattle.commit_objects.specs.Reading.{lines_of};
ghost use Rattle.object_frames.specs.declared.kind.Kind.TheVariants as kind;
ghost use Rattle.stand_world.specs.Objects.{heading_of, payload_of, signature_header, signed_content, signed_by, framed, commit_signed, commit_unsigned, commit_of};

use crate::files::Files;
use crate::framed::{Framed, make_object};
use crate::texts::push_id;
use crate::toy::sign;
use byte_cuts::cut_at;
use child_ports::{Bytes, Fingerprint};
use object_frames::{Id, Kind};
use std::alloc::{AllocError, Global};

/// What a signed commit signs, and its signature.
#[derive(Debug, Drop)]
pub struct Signed {
    pub signature: Bytes,
    pub payload: Bytes,
}

/// A commit with its objects.
#[derive(Debug, Drop)]
pub struct Commit {
    pub name: Bytes,
    pub files: Files,
    pub object: Framed,
    pub signed: Option<Signed>,
}

/// A key that signs, with the number of its hash.
#[derive(Debug, Drop)]
pub struct SigningKey {
    pub print: Fingerprint,
    pub hash: u8,
}

// Adds a line with an id.
fn push_id_line(text: &mut Bytes, word: &[u8], id: &Id) -> Result<(), AllocError>
    ensures { OnOk result (text.new ≡ text.old ++ id_line word.now id.now) }
{
    text.extend(word)?;
    push_id(text, id)?;
    text.extend(b"\n")
}

// Adds the lines of the parents.
fn push_parents(text: &mut Bytes, parents: &[Id]) -> Result<(), AllocError>
    ensures { OnOk result (text.new ≡ text.old ++ flat_map parent_line parents.now) }
{
    for parent in parents {
        push_id_line(text, b"parent ", parent)?;
    }
    Ok(())
}

// The lines before the further headers.
#[tactic(auto, unfolding(crate::specs::Objects::heading_of))]
fn heading_of(alloc: Global, tree: &Id, parents: &[Id]) -> Result<Bytes, AllocError>
    ensures { IfOk result (λ text. text ≡ heading_of tree.now parents.now) }
{
    let mut text = Bytes::new(alloc);
    push_id_line(&mut text, b"tree ", tree)?;
    push_parents(&mut text, parents)?;
    text.extend(b"author Stand In <stand@example.org> 0 +0000\n")?;
    text.extend(b"committer Stand In <stand@example.org> 0 +0000\n")?;
    Ok(text)
}

// Adds the empty line and the message.
fn push_message(text: &mut Bytes, name: &[u8]) -> Result<(), AllocError>
    ensures { OnOk result (text.new ≡ text.old ++ 10 ∷ line name.now) }
{
    text.extend(b"\n")?;
    text.extend(name)?;
    text.extend(b"\n")
}

#[tactic(auto, unfolding(crate::specs::Objects::heading_of, crate::specs::Objects::payload_of))]
fn payload_of(
    alloc: Global,
    name: &[u8],
    files: &Files,
    parents: &[Id],
) -> Result<Bytes, AllocError>
    ensures { IfOk result (λ payload. payload ≡ payload_of name.now files.now.root.id parents.now) }
{
    let mut payload = heading_of(alloc, &files.root.id, parents)?;
    push_message(&mut payload, name)?;
    Ok(payload)
}

// Adds a line behind a space.
fn push_line(text: &mut Bytes, line: &[u8]) -> Result<(), AllocError>
    ensures { OnOk result (text.new ≡ text.old ++ continued line.now) }
{
    text.extend(b" ")?;
    text.extend(line)?;
    text.extend(b"\n")
}

// Adds each line behind a space.
fn push_continued(text: &mut Bytes, lines: &[u8]) -> Result<(), AllocError>
    ensures { OnOk result (text.new ≡ text.old ++ flat_map continued (lines_of lines.now).whole) }
{
    let mut rest = lines;
    'lines: while let Some((line, next)) = cut_at(rest, b'\n') {
        push_line(text, line)?;
        rest = next;
    }
    Ok(())
}

// Adds the header of a signature.
fn push_signature(text: &mut Bytes, signature: &[u8]) -> Result<(), AllocError>
    ensures { OnOk result (text.new ≡ text.old ++ signature_header signature.now) }
{
    text.extend(b"gpgsig")?;
    push_continued(text, signature)
}

#[tactic(auto, unfolding(crate::specs::Objects::heading_of, crate::specs::Objects::signed_content))]
fn signed_content(
    alloc: Global,
    name: &[u8],
    tree: &Id,
    parents: &[Id],
    signature: &[u8],
) -> Result<Bytes, AllocError>
    ensures { IfOk result (λ content. content ≡ signed_content name.now tree.now parents.now signature.now) }
{
    let mut content = heading_of(alloc, tree, parents)?;
    push_signature(&mut content, signature)?;
    push_message(&mut content, name)?;
    Ok(content)
}

// The object of the signed commit.
fn signed_object(
    alloc: Global,
    name: &[u8],
    files: &Files,
    parents: &[Id],
    signed: &Signed,
) -> Result<Framed, AllocError>
    ensures { IfOk result (λ object. object ≡ framed kind.Commit (signed_content name.now files.now.root.id parents.now signed.now.signature)) }
{
    let signature = signed.signature.as_slice();
    let content = signed_content(alloc, name, &files.root.id, parents, signature)?;
    make_object(alloc, Kind::Commit, content.as_slice())
}

// The signed commit.
fn commit_signed(
    alloc: Global,
    name: &[u8],
    files: Files,
    parents: &[Id],
    signed: Signed,
) -> Result<Commit, AllocError>
    ensures { IfOk result (λ commit. commit ≡ commit_signed name.now files parents.now signed) }
{
    let object = signed_object(alloc, name, &files, parents, &signed)?;
    let name = Bytes::from_slice(alloc, name)?;
    Ok(Commit {
        name,
        files,
        object,
        signed: Some(signed),
    })
}

// The commit without a signature.
fn commit_unsigned(
    alloc: Global,
    name: &[u8],
    files: Files,
    payload: &[u8],
) -> Result<Commit, AllocError>
    ensures { IfOk result (λ commit. commit ≡ commit_unsigned name.now files payload.now) }
{
    let object = make_object(alloc, Kind::Commit, payload)?;
    let name = Bytes::from_slice(alloc, name)?;
    Ok(Commit {
        name,
        files,
        object,
        signed: None,
    })
}

// What a key makes of a payload.
fn signed_by(alloc: Global, signer: &SigningKey, payload: Bytes) -> Result<Signed, AllocError>
    ensures { IfOk result (λ signed. signed ≡ signed_by signer.now payload) }
{
    let signature = sign(alloc, signer.print, signer.hash, payload.as_slice())?;
    Ok(Signed { signature, payload })
}

/// The commit of this name with these files and parents, which this key signs, if any.
pub fn make_commit(
    alloc: Global,
    name: &[u8],
    files: Files,
    parents: &[Id],
    signer: &Option<SigningKey>,
) -> Result<Commit, AllocError>
    ensures { IfOk result (λ commit. commit ≡ commit_of name.now files parents.now signer.now) }
{
    let payload = payload_of(alloc, name, &files, parents)?;
    match signer {
        Some(signer) => {
            let signed = signed_by(alloc, signer, payload)?;
            commit_signed(alloc, name, files, parents, signed)
        }
        None => commit_unsigned(alloc, name, files, payload.as_slice()),
    }
}
