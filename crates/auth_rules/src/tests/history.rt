//! Histories in memory, whose keys are numbers.
ghost use Rattle.auth_rules.specs.Answers.{HoldsFamily};

use crate::{RuleFail, check_commit, check_intro};
use authorizations::{Fingerprint, KeySet, Scope};
use child_ports::{
    Bytes, GitRow, GitRows, MemGit, MemSig, Numbers, SigRow, SigRows, Text, rows_fit,
};
use commit_graph::Graph;
use object_frames::{Id, IdList, Kind, id_of};
use std::alloc::{AllocError, Global};
use std::process::Abort;

/// The fingerprint that stands for a number.
pub fn key(n: u8) -> Fingerprint {
    Fingerprint([n; 20])
}

// The 40 digits of the fingerprint that stands for a number.
fn digits(n: u8) -> [u8; 40] {
    let mut digits = [0u8; 40];
    key(n).write_hex(&mut digits);
    digits
}

fn set_of(rt: &impl Abort, alloc: Global, numbers: &[u8]) -> KeySet {
    let mut keys = KeySet::new(alloc);
    for n in numbers {
        assert!(rt; keys.insert(key(*n)).is_ok());
    }
    keys
}

// The bytes of some parts.
fn joined(alloc: Global, parts: &[&[u8]]) -> Result<Bytes, AllocError> {
    let mut bytes = Bytes::new(alloc);
    for part in parts {
        bytes.extend(part)?;
    }
    Ok(bytes)
}

// The answer of git with an object of this name.
fn frame(alloc: Global, name: &[u8], kind: Kind, content: &[u8]) -> Result<Bytes, AllocError> {
    let size = format!(in alloc; " {}\n", content.len())?;
    let mut answer = Bytes::from_slice(alloc, name)?;
    answer.extend(b" ")?;
    answer.extend(kind.word())?;
    answer.extend(size.as_bytes())?;
    answer.extend(content)?;
    answer.extend(b"\n")?;
    Ok(answer)
}

// What gpgv says of a signature by this key.
fn verdict(alloc: Global, signer: u8, hash: u8) -> Result<Bytes, AllocError> {
    let print = digits(signer);
    let rest = format!(in alloc; " 2020-01-01 1577836800 0 4 0 1 {hash} 00\n")?;
    joined(alloc, &[b"[GNUPG:] VALIDSIG ", &print, rest.as_bytes()])
}

// Adds a word and an id.
fn push_id(text: &mut Bytes, word: &[u8], id: Id) -> Result<(), AllocError> {
    let mut name = [0u8; 40];
    id.write_hex(&mut name);
    text.extend(word)?;
    text.extend(&name)
}

// Adds a key to a list.
fn push_key(text: &mut Bytes, n: u8) -> Result<(), AllocError> {
    text.extend(b"(\"")?;
    text.extend(&digits(n))?;
    text.extend(b"\")")
}

// The id of an object, for which there was memory.
fn made(rt: &impl Abort, id: Result<Id, AllocError>) -> Id {
    match id {
        Ok(id) => id,
        Err(_) => panic!(rt; "memory is wanting"),
    }
}

fn git_of(
    rt: &impl Abort,
    alloc: Global,
    rows: GitRows,
    fails: &[u64],
) -> Result<MemGit, AllocError> {
    assert!(rt; rows_fit(&rows), "the rows fit");
    let fails = Numbers::from_slice(alloc, fails)?;
    MemGit::new(alloc, rows, fails, Numbers::new(alloc))
}

fn sig_of(alloc: Global, rows: SigRows, fails: &[u64]) -> Result<MemSig, AllocError> {
    let fails = Numbers::from_slice(alloc, fails)?;
    MemSig::new(alloc, rows, fails)
}

/// What git and gpgv answer, and the graph of the commits.
#[derive(Drop)]
pub struct History {
    alloc: Global,
    rows: GitRows,
    verdicts: SigRows,
    graph: Graph,
}

/// The same, opened as ports.
#[derive(Drop)]
pub struct Opened {
    alloc: Global,
    pub git: MemGit,
    pub sig: MemSig,
    graph: Graph,
}

// The graph holds the commit and all its ancestors.
#[tactic(auto, using(crate::proofs::CauseLemmas::whole_family))]
fn require_family(rt: &impl Abort, graph: &Graph, id: Id)
    ensures { HoldsFamily graph.now.held id }
{
    assert!(rt; graph.holds(id), "it is held");
    if let Some(_) = graph.missing() {
        panic!(rt; "a parent is missing");
    }
}

// The graph takes a commit with these parents.
fn hold(rt: &impl Abort, alloc: Global, graph: &mut Graph, id: Id, parents: &[Id]) {
    let Ok(parents) = IdList::from_slice(alloc, parents) else {
        panic!(rt; "memory is wanting");
    };
    assert!(rt; graph.add(id, &parents).is_ok());
}

impl History {
    pub fn new(alloc: Global) -> History {
        History {
            alloc,
            rows: GitRows::new(alloc),
            verdicts: SigRows::new(alloc),
            graph: Graph::new(alloc),
        }
    }

    // Git has this object.
    fn put(&mut self, kind: Kind, content: &[u8]) -> Result<Id, AllocError> {
        let id = id_of(kind, content);
        let mut name = [0u8; 40];
        id.write_hex(&mut name);
        let answer = frame(self.alloc, &name, kind, content)?;
        let name = Bytes::from_slice(self.alloc, &name)?;
        self.rows.push(GitRow {
            dir: Text::new(self.alloc),
            name,
            answer,
        })?;
        Ok(id)
    }

    /// A blob of this content.
    pub fn blob(&mut self, rt: &impl Abort, content: &[u8]) -> Id {
        made(rt, self.put(Kind::Blob, content))
    }

    fn put_file(&mut self, keys: &[u8]) -> Result<Id, AllocError> {
        let mut text = Bytes::from_slice(self.alloc, b"(authorizations (version 0) (")?;
        for n in keys {
            push_key(&mut text, *n)?;
        }
        text.extend(b"))")?;
        self.put(Kind::Blob, text.as_slice())
    }

    /// A file that lists these keys.
    pub fn file(&mut self, rt: &impl Abort, keys: &[u8]) -> Id {
        made(rt, self.put_file(keys))
    }

    // A tree that has this file.
    fn put_tree(&mut self, file: Option<Id>) -> Result<Id, AllocError> {
        let mut tree = Bytes::new(self.alloc);
        if let Some(blob) = file {
            tree.extend(b"100644 .guix-authorizations\0")?;
            tree.extend(&blob.bytes())?;
        }
        self.put(Kind::Tree, tree.as_slice())
    }

    // The lines before the signature.
    fn head(&self, tree: Id, parents: &[Id]) -> Result<Bytes, AllocError> {
        let mut head = Bytes::new(self.alloc);
        push_id(&mut head, b"tree ", tree)?;
        for parent in parents {
            push_id(&mut head, b"\nparent ", *parent)?;
        }
        let place = format!(in self.alloc; "\nauthor {}\ncommitter c\n", self.graph.len())?;
        head.extend(place.as_bytes())?;
        Ok(head)
    }

    // gpgv says that the key signed what follows these lines.
    fn sign(&mut self, signer: u8, hash: u8, head: &[u8]) -> Result<(), AllocError> {
        let payload = joined(self.alloc, &[head, b"\n"])?;
        let answer = verdict(self.alloc, signer, hash)?;
        let signature = Bytes::from_slice(self.alloc, &[signer, b'\n'])?;
        self.verdicts.push(SigRow {
            keyring: Bytes::new(self.alloc),
            signature,
            payload,
            answer,
        })
    }

    // What a commit with these lines holds.
    fn content(&mut self, signer: u8, hash: u8, head: &[u8]) -> Result<Bytes, AllocError> {
        if signer == 0 {
            return joined(self.alloc, &[head, b"\n"]);
        }
        self.sign(signer, hash, head)?;
        joined(self.alloc, &[head, b"gpgsig ", &[signer, b'\n'], b"\n"])
    }

    fn put_commit(
        &mut self,
        parents: &[Id],
        signer: u8,
        hash: u8,
        file: Option<Id>,
    ) -> Result<Id, AllocError> {
        let tree = self.put_tree(file)?;
        let head = self.head(tree, parents)?;
        let content = self.content(signer, hash, head.as_slice())?;
        self.put(Kind::Commit, content.as_slice())
    }

    /// A commit with these parents, of a tree that has this file. The signer 0 stands for none.
    pub fn commit(
        &mut self,
        rt: &impl Abort,
        parents: &[Id],
        signer: u8,
        hash: u8,
        file: Option<Id>,
    ) -> Id {
        let id = made(rt, self.put_commit(parents, signer, hash, file));
        hold(rt, self.alloc, &mut self.graph, id, parents);
        id
    }

    /// The ports. Git fails at the calls of these numbers, gpgv at those of others.
    pub fn open(self, rt: &impl Abort, git_fails: &[u64], sig_fails: &[u64]) -> Opened {
        let History {
            alloc,
            rows,
            verdicts,
            graph,
        } = self;
        let Ok(git) = git_of(rt, alloc, rows, git_fails) else {
            panic!(rt; "memory is wanting");
        };
        let Ok(sig) = sig_of(alloc, verdicts, sig_fails) else {
            panic!(rt; "memory is wanting");
        };
        Opened {
            alloc,
            git,
            sig,
            graph,
        }
    }
}

impl Opened {
    fn scope(&self, rt: &impl Abort, intro: Id, historical: &[u8]) -> Scope {
        Scope {
            intro,
            signer: key(1),
            keyring_tree: intro,
            historical: set_of(rt, self.alloc, historical),
        }
    }

    /// The answer on a commit, under the keyring of the keys 1 to 3 and these historical keys.
    pub fn judge(
        &mut self,
        rt: &impl Abort,
        historical: &[u8],
        id: Id,
    ) -> Result<Fingerprint, RuleFail> {
        let scope = self.scope(rt, id, historical);
        let keys = set_of(rt, self.alloc, &[1, 2, 3]);
        require_family(rt, &self.graph, id);
        check_commit(
            self.alloc,
            &mut self.git,
            &mut self.sig,
            "",
            &scope,
            &keys,
            &self.graph,
            id,
        )
    }

    /// The answer on an introduction that key 1 has to have signed.
    pub fn judge_intro(&mut self, rt: &impl Abort, intro: Id) -> Result<(), RuleFail> {
        let scope = self.scope(rt, intro, &[]);
        let keys = set_of(rt, self.alloc, &[1, 2, 3]);
        check_intro(self.alloc, &mut self.git, &mut self.sig, "", &scope, &keys)
    }
}
