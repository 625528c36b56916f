//! What is asked of a tree.
ghost use Rattle.std.specs.Prelude.{◌≡◌, Option, List, Ok, IfOk, IfErr, bytes_eq};
ghost use Rattle.std.specs.List.{list_any};
ghost use Rattle.tree_entries.specs.declared.entry.Entry.{Entry};
ghost use Rattle.tree_entries.specs.Asked.{IsFound, AreFiles};
ghost use Rattle.tree_entries.specs.Faults.{IsFindFault, IsFilesFault};
ghost use Rattle.tree_entries.specs.Reading.{find_of, files_of, Gives};

use crate::front::front_entry;
use crate::{Entries, Entry, TreeFail};
use std::alloc::Global;

/// The entry of this name, of any mode, after Git's object format.
///
/// The order of the entries isn't looked at. `Memory` may stand in place of an entry.
pub fn find(alloc: Global, content: &[u8], name: &[u8]) -> Result<Option<Entry>, TreeFail>
    // It is what the content's entries give, from the first on.
    ensures exact { Gives result (find_of content.now name.now) }
    // What is found is in the grammar, and what is in the grammar is found.
    ensures found { IfOk result (λ found. IsFound 20 content.now name.now found) }
    ensures only { (answer : Option Entry) → IsFound 20 content.now name.now answer → Gives result (Ok answer) }
    // A refusal is the first entry at fault.
    ensures fault { IfErr result (λ fail. IsFindFault 20 content.now name.now fail) }
{
    let mut found = None;
    let mut rest = content;
    'entries: while !rest.is_empty() {
        let place = (content.len() - rest.len()) as u64;
        let entry = match front_entry(rest, place) {
            Ok(entry) => entry,
            Err(fail) => return Err(fail),
        };
        if entry.name == name {
            if found.is_some() {
                return Err(TreeFail::Twice(place));
            }
            found = Some(entry.to_entry(alloc)?);
        }
        rest = entry.rest;
    }
    Ok(found)
}

// Whether one of the files has this name.
fn has_name(files: &[Entry], name: &[u8]) -> bool
    ensures { result ≡ list_any (λ file. bytes_eq file.name name.now) files.now }
{
    for file in files {
        if file.name.as_slice() == name {
            return true;
        }
    }
    false
}

/// The files whose names end so, in the content's order, after Git's object format.
pub fn files_ending(alloc: Global, content: &[u8], suffix: &[u8]) -> Result<Entries, TreeFail>
    // They are what the content's entries give, from the first on.
    ensures exact { Gives result (files_of content.now suffix.now) }
    // What is found is in the grammar, and what is in the grammar is found.
    ensures found { IfOk result (λ files. AreFiles 20 content.now suffix.now files) }
    ensures only { (answer : List Entry) → AreFiles 20 content.now suffix.now answer → Gives result (Ok answer) }
    // A refusal is the first entry at fault.
    ensures fault { IfErr result (λ fail. IsFilesFault 20 content.now suffix.now fail) }
{
    let mut files = Entries::new(alloc);
    let mut rest = content;
    'entries: while !rest.is_empty() {
        let place = (content.len() - rest.len()) as u64;
        let entry = match front_entry(rest, place) {
            Ok(entry) => entry,
            Err(fail) => return Err(fail),
        };
        if has_name(files.as_slice(), entry.name) {
            return Err(TreeFail::Twice(place));
        }
        if entry.mode.is_file() && entry.name.ends_with(suffix) {
            let file = entry.to_entry(alloc)?;
            files.push(file)?;
        }
        rest = entry.rest;
    }
    Ok(files)
}
