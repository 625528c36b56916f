//! The files of a commit, and its root tree.
ghost use Rattle.std.specs.Prelude.{◌≡◌, ◌++◌, ◌∷◌, codes, IfOk, OnOk};
ghost use Rattle.std.specs.List.{flat_map};
ghost use Rattle.tree_entries.specs.Tree.{entry_bytes};
ghost use Rattle.stand_world.specs.Objects.{entry_text, entries_text, authorizations_text, authorizations_of, channel_of, file_entry, entry_if, root_content, with_root, files_of};

use crate::framed::{Framed, make_object};
use crate::texts::push_fingerprint;
use child_ports::{Bytes, Fingerprint, Items};
use object_frames::{Id, Kind};
use std::alloc::{AllocError, Global};

/// A key that a commit's file of authorisations lists.
#[derive(Debug, Drop)]
pub struct Listed {
    pub name: Bytes,
    pub print: Fingerprint,
}

/// The keys that a file of authorisations lists, in its order.
pub type ListedKeys = Items<Listed>;

/// A commit's files, where they are there, and its root tree.
#[derive(Debug, Drop)]
pub struct Files {
    pub authorizations: Option<Framed>,
    pub channel: Option<Framed>,
    pub root: Framed,
}

// Adds a key's entry.
fn push_entry_text(text: &mut Bytes, key: &Listed) -> Result<(), AllocError>
    ensures { OnOk result (text.new ≡ text.old ++ entry_text key.now) }
{
    text.extend(b"(\"")?;
    push_fingerprint(text, &key.print)?;
    text.extend(b"\" (name \"")?;
    text.extend(key.name.as_slice())?;
    text.extend(b"\"))")
}

// Adds the entries of keys, with a space before each.
fn push_more_entries(text: &mut Bytes, keys: &[Listed]) -> Result<(), AllocError>
    ensures { OnOk result (text.new ≡ text.old ++ flat_map (λ other. 32 ∷ entry_text other) keys.now) }
{
    for key in keys {
        text.extend(b" ")?;
        push_entry_text(text, key)?;
    }
    Ok(())
}

// Adds the entries of keys, with a space between each two.
fn push_entries(text: &mut Bytes, keys: &[Listed]) -> Result<(), AllocError>
    ensures { OnOk result (text.new ≡ text.old ++ entries_text keys.now) }
{
    match keys {
        [] => Ok(()),
        [first, more @ ..] => {
            push_entry_text(text, first)?;
            push_more_entries(text, more)
        }
    }
}

// The file that authorises these keys.
#[tactic(auto, unfolding(crate::specs::Objects::authorizations_text))]
fn authorizations_text(alloc: Global, keys: &[Listed]) -> Result<Bytes, AllocError>
    ensures { IfOk result (λ text. text ≡ authorizations_text keys.now) }
{
    let mut text = Bytes::from_slice(alloc, b"(authorizations (version 0) (")?;
    push_entries(&mut text, keys)?;
    text.extend(b"))\n")?;
    Ok(text)
}

fn authorizations_of(alloc: Global, keys: &Option<ListedKeys>) -> Result<Option<Framed>, AllocError>
    ensures { IfOk result (λ file. file ≡ authorizations_of keys.now) }
{
    let Some(keys) = keys else {
        return Ok(None);
    };
    let text = authorizations_text(alloc, keys.as_slice())?;
    Ok(Some(make_object(alloc, Kind::Blob, text.as_slice())?))
}

fn channel_of(alloc: Global, text: &Option<Bytes>) -> Result<Option<Framed>, AllocError>
    ensures { IfOk result (λ file. file ≡ channel_of text.now) }
{
    let Some(text) = text else {
        return Ok(None);
    };
    let mut content = Bytes::from_slice(alloc, text.as_slice())?;
    content.extend(b"\n")?;
    Ok(Some(make_object(alloc, Kind::Blob, content.as_slice())?))
}

/// Adds the entry of a plain file to a tree.
pub fn push_entry(tree: &mut Bytes, name: &[u8], id: &Id) -> Result<(), AllocError>
    ensures { OnOk result (tree.new ≡ tree.old ++ entry_bytes (file_entry name.now id.now)) }
{
    tree.extend(b"100644 ")?;
    tree.extend(name)?;
    tree.extend(b"\0")?;
    tree.extend(&id.bytes())
}

// Adds the entry of a file that is there.
fn push_entry_if(tree: &mut Bytes, name: &[u8], file: &Option<Framed>) -> Result<(), AllocError>
    ensures { OnOk result (tree.new ≡ tree.old ++ entry_if name.now file.now) }
{
    match file {
        Some(file) => push_entry(tree, name, &file.id),
        None => Ok(()),
    }
}

fn with_root(
    alloc: Global,
    authorizations: Option<Framed>,
    channel: Option<Framed>,
) -> Result<Files, AllocError>
    ensures { IfOk result (λ files. files ≡ with_root authorizations channel) }
{
    let mut tree = Bytes::new(alloc);
    push_entry_if(&mut tree, b".guix-authorizations", &authorizations)?;
    push_entry_if(&mut tree, b".guix-channel", &channel)?;
    let root = make_object(alloc, Kind::Tree, tree.as_slice())?;
    Ok(Files {
        authorizations,
        channel,
        root,
    })
}

/// The files and the root tree of a commit that authorises these keys, if any, where this text of a channel holds, if any.
pub fn make_files(
    alloc: Global,
    keys: &Option<ListedKeys>,
    channel: &Option<Bytes>,
) -> Result<Files, AllocError>
    ensures { IfOk result (λ files. files ≡ files_of keys.now channel.now) }
{
    let authorizations = authorizations_of(alloc, keys)?;
    let channel = channel_of(alloc, channel)?;
    with_root(alloc, authorizations, channel)
}
