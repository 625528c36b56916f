//! Commits in memory.
use crate::{HistoryFail, read_history};
use child_ports::{Bytes, GitRow, GitRows, MemGit, Numbers, Text, rows_fit};
use commit_graph::Graph;
use object_frames::{Id, Kind, id_of};
use std::alloc::Global;
use std::process::Abort;
use std::test::Fail;

/// What git answers.
#[derive(Drop)]
pub struct Commits {
    alloc: Global,
    rows: GitRows,
}

/// The same, opened as a port.
#[derive(Drop)]
pub struct Opened {
    alloc: Global,
    git: MemGit,
}

impl Commits {
    pub fn new(alloc: Global) -> Commits {
        Commits {
            alloc,
            rows: GitRows::new(alloc),
        }
    }

    // Git has this object.
    fn put(&mut self, kind: Kind, content: &[u8]) -> Result<Id, Fail> {
        let id = id_of(kind, content);
        let mut name = [0u8; 40];
        id.write_hex(&mut name);
        let mut answer = Bytes::from_slice(self.alloc, &name)?;
        answer.extend(b" ")?;
        answer.extend(kind.word())?;
        let size = format!(in self.alloc; " {}\n", content.len())?;
        answer.extend(size.as_bytes())?;
        answer.extend(content)?;
        answer.extend(b"\n")?;
        self.rows.push(GitRow {
            dir: Text::new(self.alloc),
            name: Bytes::from_slice(self.alloc, &name)?,
            answer,
        })?;
        Ok(id)
    }

    /// A blob of this content.
    pub fn blob(&mut self, content: &[u8]) -> Result<Id, Fail> {
        self.put(Kind::Blob, content)
    }

    /// A commit with these parents.
    pub fn commit(&mut self, parents: &[Id]) -> Result<Id, Fail> {
        let mut name = [0u8; 40];
        id_of(Kind::Tree, b"").write_hex(&mut name);
        let mut content = Bytes::from_slice(self.alloc, b"tree ")?;
        content.extend(&name)?;
        for parent in parents {
            parent.write_hex(&mut name);
            content.extend(b"\nparent ")?;
            content.extend(&name)?;
        }
        let rest = format!(in self.alloc; "\nauthor {}\ncommitter c\n\n", self.rows.len())?;
        content.extend(rest.as_bytes())?;
        self.put(Kind::Commit, content.as_slice())
    }

    /// The port. It fails at the calls of these numbers.
    pub fn open(self, rt: &impl Abort, fails: &[u64]) -> Result<Opened, Fail> {
        let Commits { alloc, rows } = self;
        assert!(rt; rows_fit(&rows), "the rows fit");
        let fails = Numbers::from_slice(alloc, fails)?;
        let git = MemGit::new(alloc, rows, fails, Numbers::new(alloc))?;
        Ok(Opened { alloc, git })
    }
}

impl Opened {
    /// The history of a target and an introduction.
    pub fn history(&mut self, target: Id, intro: Id) -> Result<Graph, HistoryFail> {
        read_history(self.alloc, &mut self.git, "", target, intro)
    }
}
