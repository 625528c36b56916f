//! Git, as a program that answers one name at a time.
ghost use Rattle.std.specs.Prelude.{◌≡◌, ◌≤◌, ◌<◌, List, ℕ, Bool, length, IfOk, OnOk, IsTrue};
ghost use Rattle.child_ports.specs.Causes.{FailsByCount};
ghost use Rattle.child_ports.specs.Git.{IsName, answer, Hands};
ghost use Rattle.child_ports.specs.Framed.{IsFramed};
ghost use Rattle.child_ports.specs.Named.{after_name};

use crate::{Bytes, Failed, Items, Text};

/// What git answers to a name in a directory.
#[derive(Debug, Drop)]
pub struct GitRow {
    pub dir: Text,
    pub name: Bytes,
    pub answer: Bytes,
}

/// Git's answers. Of two rows for one name in one directory the first counts.
pub type GitRows = Items<GitRow>;

/// `git cat-file --batch`, for any directory: a name is asked, and its answer is read in pieces.
pub trait GitPort {
    ghost use Rattle.child_ports.specs.declared.git.GitRow.{GitRow};

    /// How often a call has failed. It never falls, and stays at the last u64.
    ghost faults: { Self → ℕ };

    /// Whether the answers are told. What is said of answers is said of a port that tells them.
    ghost tells: { Self → Bool };

    /// The answers. No call changes them.
    ghost table: { Self → List GitRow };

    /// How many names were asked that are no ids in full, whatever the answers. It stays at the last u64.
    ///
    /// An id in full binds its answer: the object has to have it. Any other name can come to stand for something else
    /// between two questions: a bound on this count is a bound on how often that can happen.
    ghost named: { Self → ℕ };

    /// What of the last answer is unread.
    ghost pending: { Self → List ℕ };

    /// Asks a name. What was unread is let go.
    fn ask(&mut self, dir: &str, name: &[u8]) -> Result<(), Failed>
        requires { IsName name.now }
        ensures told { tells self.new ≡ tells self.old }
        ensures table { table self.new ≡ table self.old }
        ensures named { named self.new ≡ after_name name.now (named self.old) }
        ensures answer { OnOk result (IsTrue (tells self.old) → pending self.new ≡ answer (table self.old) dir.now name.now) }
        ensures framed { IsTrue (tells self.old) → IsFramed name.now (answer (table self.old) dir.now name.now) }
        ensures cause { FailsByCount (faults self.old) (faults self.new) result };

    /// Reads some of what is unread into the front of the buffer: none only at its end, or where the
    /// buffer is empty.
    fn read(&mut self, buf: &mut [u8]) -> Result<usize, Failed>
        ensures told { tells self.new ≡ tells self.old }
        ensures table { table self.new ≡ table self.old }
        ensures named { named self.new ≡ named self.old }
        ensures room { IfOk result (λ n. n ≤ length buf.old) }
        ensures bytes { IfOk result (λ n. IsTrue (tells self.old) → Hands (pending self.old) (pending self.new) n buf.new) }
        ensures cause { FailsByCount (faults self.old) (faults self.new) result };
}
