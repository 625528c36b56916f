//! The world of a script.
ghost use Rattle.std.specs.Prelude.{◌≡◌, IfOk};
ghost use Rattle.std.specs.List.{AllByRecursion};
ghost use Rattle.child_ports.specs.Framed.{RowFits};
ghost use Rattle.stand_world.specs.Script.{ended, declared_by};
ghost use Rattle.stand_world.specs.World.{world_of, Gives, id_of, print_of, git_rows, sig_rows};
ghost use Rattle.stand_world.specs.Written.{IsWritten};

use crate::BuildFail;
use crate::declared::{Declared, find_commit, find_key};
use crate::declaring::after_line;
use crate::git_rows::git_rows_of;
use crate::sig_rows::{keyring_of, signature_rows};
use byte_cuts::cut_at;
use child_ports::{Fingerprint, GitRows, SigRows, Text};
use object_frames::Id;
use std::alloc::{AllocError, Global};
use std::marker::Model;

/// What a script declares, in a directory.
#[derive(Debug, Drop)]
pub struct World {
    dir: Text,
    declared: Declared,
}

impl Model for World {
    ghost use Rattle.stand_world.specs.WorldState.{WorldState};

    ghost Value = { WorldState };

    ghost use Rattle.stand_world.specs.WorldInside.{world_state, IsFit};

    ghost view = { world_state };

    ghost invariant = { IsFit };
}

// The end of a script: nothing may be left without its line feed, and a commit has to be there.
fn end_script(declared: Declared, left: &[u8], number: u64) -> Result<Declared, BuildFail>
    ensures { result ≡ ended number left.now declared }
{
    if left.is_empty() && declared.commits.len() != 0 {
        return Ok(declared);
    }
    Err(BuildFail::Line(number))
}

// What a script declares.
fn read_script(alloc: Global, script: &[u8]) -> Result<Declared, BuildFail>
    ensures { Gives result (declared_by script.now) }
{
    let mut declared = Declared::new(alloc);
    let mut number = 1u64;
    let mut rest = script;
    'lines: while let Some((line, next)) = cut_at(rest, b'\n') {
        declared = match after_line(alloc, declared, line)? {
            Some(after) => after,
            None => return Err(BuildFail::Line(number)),
        };
        number += 1;
        rest = next;
    }
    end_script(declared, rest, number)
}

/// The world of a script, whose rows are for this directory.
///
/// A script is lines that a line feed ends: `key NAME`, `meta TEXT`, `commit NAME PARENTS SIGNER FILE`, `branch NAME COMMIT` or
/// nothing. What a line names has to be declared before it.
pub fn build(alloc: Global, script: &[u8], dir: &str) -> Result<World, BuildFail>
    // Unless memory is wanting, it is the world of what the lines declare, or the first line at fault.
    ensures exact { Gives result (world_of script.now dir.now) }
    // Reading a commit gives its tree, its signature and what is signed.
    ensures written { IfOk result (λ world. AllByRecursion IsWritten world.declared.commits) }
{
    let declared = read_script(alloc, script)?;
    let mut text = Text::new(alloc);
    text.push(dir)?;
    Ok(World {
        dir: text,
        declared,
    })
}

impl World {
    /// The id of the commit of this name.
    pub fn id(&self, name: &str) -> Option<Id>
        ensures { result ≡ id_of self.now name.now }
    {
        let commit = find_commit(self.declared.commits.as_slice(), name.as_bytes())?;
        Some(commit.object.id)
    }

    /// The fingerprint of the key of this name.
    pub fn key(&self, name: &str) -> Option<Fingerprint>
        ensures { result ≡ print_of self.now name.now }
    {
        let key = find_key(self.declared.keys.as_slice(), name.as_bytes())?;
        Some(key.print)
    }

    /// What git answers: each commit and its objects by their ids, HEAD, the branches, and the keyring's branch.
    pub fn git_rows(&self, alloc: Global) -> Result<GitRows, AllocError>
        ensures rows { IfOk result (λ rows. rows ≡ git_rows self.now) }
        // They can stand for git's answers.
        ensures fits { IfOk result (λ rows. AllByRecursion RowFits rows) }
    {
        git_rows_of(alloc, self.dir.as_str(), &self.declared)
    }

    /// What gpgv says: the worth of each signature under the script's keyring.
    pub fn sig_rows(&self, alloc: Global) -> Result<SigRows, AllocError>
        ensures { IfOk result (λ rows. rows ≡ sig_rows self.now) }
    {
        let keyring = keyring_of(alloc, self.declared.keys.as_slice())?;
        signature_rows(alloc, keyring.as_slice(), self.declared.commits.as_slice())
    }
}
