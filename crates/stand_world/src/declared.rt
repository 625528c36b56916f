//! What the lines of a script declare.
ghost use Rattle.std.specs.Prelude.{◌≡◌};
ghost use Rattle.std.specs.Option.{option_copied};
ghost use Rattle.stand_world.specs.Script.{key_named, commit_named, branch_named, nothing};

use crate::commit::Commit;
use crate::key::Key;
use child_ports::{Bytes, Items};
use std::alloc::Global;

/// A branch: git's answer with the commit at which it stands.
#[derive(Debug, Drop)]
pub struct Branch {
    pub name: Bytes,
    pub frame: Bytes,
}

/// What is declared so far.
#[derive(Debug, Drop)]
pub struct Declared {
    /// Ascending by the names of their files.
    pub keys: Items<Key>,
    /// The text of the channel's file in the commits that follow.
    pub meta: Option<Bytes>,
    /// In the order of their lines, as the branches.
    pub commits: Items<Commit>,
    pub branches: Items<Branch>,
}

impl Declared {
    /// Nothing.
    pub fn new(alloc: Global) -> Declared
        ensures { result ≡ nothing }
    {
        Declared {
            keys: Items::new(alloc),
            meta: None,
            commits: Items::new(alloc),
            branches: Items::new(alloc),
        }
    }
}

/// The key of this name.
pub fn find_key<'x>(keys: &'x [Key], name: &[u8]) -> Option<&'x Key>
    ensures { option_copied result ≡ key_named keys.now name.now }
{
    for key in keys {
        if key.name.as_slice() == name {
            return Some(key);
        }
    }
    None
}

/// The commit of this name.
pub fn find_commit<'x>(commits: &'x [Commit], name: &[u8]) -> Option<&'x Commit>
    ensures { option_copied result ≡ commit_named commits.now name.now }
{
    for commit in commits {
        if commit.name.as_slice() == name {
            return Some(commit);
        }
    }
    None
}

/// The branch of this name.
pub fn find_branch<'x>(branches: &'x [Branch], name: &[u8]) -> Option<&'x Branch>
    ensures { option_copied result ≡ branch_named branches.now name.now }
{
    for branch in branches {
        if branch.name.as_slice() == name {
            return Some(branch);
        }
    }
    None
}
