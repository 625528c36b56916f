//! The commit that names stand for.
ghost use Rattle.std.specs.Prelude.{◌≡◌, length, IsTrue, false};
ghost use Rattle.std.specs.List.{AllByRecursion};
ghost use Rattle.child_ports.specs.Causes.{RoseWhen};
ghost use Rattle.child_ports.specs.Git.{IsName};
ghost use Rattle.child_ports.specs.Named.{NamedAtMost};
ghost use Rattle.auth_engine.specs.Answers.{Gives, is_git_fault, is_sig_fault, is_keep_fault};
ghost use Rattle.channel_clone.specs.Resolving.{resolved};

use auth_engine::{EngineFail, Which, name_first_commit};
use child_ports::{GitPort, Names, PortFail};
use object_frames::Id;
use std::alloc::Global;

/// The commit that names stand for in a directory: the first that isn't missing has to be one, of at most 1,048,576 bytes.
pub fn resolve<G: GitPort>(
    alloc: Global,
    git: &mut G,
    dir: &str,
    names: &Names,
) -> Result<Id, EngineFail>
    requires names { AllByRecursion IsName names.now }

    // The id, or `Name` with why there is none.
    ensures exact { IsTrue (G.tells git.old) → Gives result (resolved (G.table git.old) dir.now names.now) }

    // A fault comes exactly where a call of git failed.
    ensures cause { RoseWhen (is_git_fault result) (G.faults git.old) (G.faults git.new) }
    ensures no_sig_fault { is_sig_fault result ≡ false }
    ensures no_keep_fault { is_keep_fault result ≡ false }
    ensures told { G.tells git.new ≡ G.tells git.old }
    ensures table { G.table git.new ≡ G.table git.old }
    ensures named { NamedAtMost (length names.now) (G.named git.old) (G.named git.new) }
{
    match name_first_commit(alloc, git, dir, names.as_slice()) {
        Ok(Ok(object)) => Ok(object.id),
        Ok(Err(what)) => Err(EngineFail::Name {
            which: Which::Target,
            what,
        }),
        Err(PortFail::Failed) => Err(EngineFail::GitFault),
        Err(PortFail::Memory) => Err(EngineFail::Memory),
    }
}
