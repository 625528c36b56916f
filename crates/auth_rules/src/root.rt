//! A commit and the file in its root tree.
ghost use Rattle.std.specs.Prelude.{◌≡◌, false, IsTrue};
ghost use Rattle.child_ports.specs.Causes.{RoseWhen};
ghost use Rattle.auth_rules.specs.Answers.{is_git_fault, is_sig_fault};
ghost use Rattle.auth_rules.specs.Rules.{root_of};
ghost use Rattle.auth_rules.specs.Consulting.{Gives, git_world, unread};

use crate::reading::{read_commit_at, read_file_at};
use crate::{Cause, ReadFail, RuleFail};
use child_ports::GitPort;
use commit_objects::Commit;
use object_frames::Id;
use std::alloc::Global;

/// A commit, and the file of authorisations in its root tree, if there is one.
#[derive(Debug, Drop)]
pub struct Root {
    pub commit: Commit,
    pub file: Option<Id>,
}

/// What follows from it that an object isn't read.
pub fn unread(id: Id, fail: ReadFail) -> RuleFail
    ensures { result ≡ unread id fail }
{
    match fail {
        ReadFail::Unreadable(what) => RuleFail::Refused(Cause::Unreadable { id, what }),
        ReadFail::GitFault => RuleFail::GitFault,
        ReadFail::Memory => RuleFail::Memory,
    }
}

/// Reads a commit, and then its root tree.
pub fn read_root<G: GitPort>(
    alloc: Global,
    git: &mut G,
    dir: &str,
    id: Id,
) -> Result<Root, RuleFail>
    ensures told { G.tells git.new ≡ G.tells git.old }
    ensures table { G.table git.new ≡ G.table git.old }
    ensures named { G.named git.new ≡ G.named git.old }
    ensures exact { IsTrue (G.tells git.old) → Gives result (root_of (git_world (G.table git.old) dir.now) id) }
    ensures git_fault { RoseWhen (is_git_fault result) (G.faults git.old) (G.faults git.new) }
    ensures no_sig_fault { is_sig_fault result ≡ false }
{
    let commit = match read_commit_at(alloc, git, dir, id) {
        Ok(commit) => commit,
        Err(fail) => return Err(unread(id, fail)),
    };
    let tree = commit.tree;
    match read_file_at(alloc, git, dir, tree) {
        Ok(file) => Ok(Root { commit, file }),
        Err(fail) => Err(unread(tree, fail)),
    }
}
