//! What was read of a cache's text, up to the end of a line.
ghost use Rattle.std.specs.Prelude.{◌≡◌, codes, ok_or};
ghost use Rattle.auth_cache.specs.declared.fail.CacheFail.TheVariants.{Form};
ghost use Rattle.auth_cache.specs.Reading.{Gives, is_above, with_key, with_commit, body_step, id_on, key_on, step, finish, keys_eq, is_under};
ghost use Rattle.auth_cache.specs.Keys.{ascending};

use crate::CacheFail;
use crate::entries::{MOST, holds};
use crate::lines::{id_on, key_on};
use authorizations::Scope;
use child_ports::{Fingerprint, Items, KeySet};
use object_frames::{Id, IdList};
use std::alloc::Global;

/// The parts of a text: a scope, and commits.
#[derive(Debug, Drop)]
pub struct Recorded {
    pub intro: Id,
    pub signer: Fingerprint,
    pub keyring: Id,
    /// Ascending by their bytes.
    pub keys: Items<Fingerprint>,
    /// The newest first.
    pub commits: IdList,
}

/// The lines that were read, from the version's on.
#[derive(Debug, Drop)]
pub enum Front {
    Versioned,
    Introduced(Id),
    Signed(Id, Fingerprint),
    /// The heading, and keys and commits.
    Body(Recorded),
    /// All.
    Ended(Recorded),
}

// Whether the key is above the last of these.
fn is_above(keys: &[Fingerprint], key: Fingerprint) -> bool
    ensures { result ≡ is_above keys.now key }
{
    match keys.last() {
        Some(last) => last.cmp(&key).is_lt(),
        None => true,
    }
}

// Whether the keys are those of the set.
fn are_keys(keys: &[Fingerprint], set: &KeySet) -> bool
    ensures { result ≡ keys_eq keys.now (ascending set.now) }
{
    keys == set.as_slice()
}

impl Recorded {
    // One more historical key.
    fn with_key(mut self, key: Fingerprint, at: u64) -> Result<Front, CacheFail>
        ensures { Gives result (ok_or (with_key self key) (Form at)) }
    {
        if self.commits.len() == 0 && is_above(self.keys.as_slice(), key) {
            self.keys.push(key)?;
            Ok(Front::Body(self))
        } else {
            Err(CacheFail::Form(at))
        }
    }

    // One more commit.
    fn with_commit(mut self, id: Id, at: u64) -> Result<Front, CacheFail>
        ensures { Gives result (ok_or (with_commit self id) (Form at)) }
    {
        if self.commits.len() < MOST && !holds(self.commits.as_slice(), id) {
            self.commits.push(id)?;
            Ok(Front::Body(self))
        } else {
            Err(CacheFail::Form(at))
        }
    }

    // One more line.
    fn with_line(self, line: &[u8], at: u64) -> Result<Front, CacheFail>
        ensures { Gives result (ok_or (body_step self (key_on (codes "historical ") line.now) (id_on (codes "commit ") line.now) line.now) (Form at)) }
    {
        if let Some(key) = key_on(line, b"historical ") {
            return self.with_key(key, at);
        }
        if let Some(id) = id_on(line, b"commit ") {
            return self.with_commit(id, at);
        }
        if line == b"end".as_slice() {
            Ok(Front::Ended(self))
        } else {
            Err(CacheFail::Form(at))
        }
    }

    /// Whether the parts are those of the scope.
    pub fn is_under(&self, scope: &Scope) -> bool
        ensures { result ≡ is_under self.now scope.now }
    {
        self.intro == scope.intro
            && self.signer == scope.signer
            && self.keyring == scope.keyring_tree
            && are_keys(self.keys.as_slice(), &scope.historical)
    }
}

impl Front {
    /// Takes one more line, which begins at this offset.
    pub fn with_line(self, alloc: Global, line: &[u8], at: u64) -> Result<Front, CacheFail>
        ensures { Gives result (ok_or (step self line.now) (Form at)) }
    {
        match self {
            Front::Versioned => match id_on(line, b"intro ") {
                Some(intro) => Ok(Front::Introduced(intro)),
                None => Err(CacheFail::Form(at)),
            },
            Front::Introduced(intro) => match key_on(line, b"signer ") {
                Some(signer) => Ok(Front::Signed(intro, signer)),
                None => Err(CacheFail::Form(at)),
            },
            Front::Signed(intro, signer) => match id_on(line, b"keyring ") {
                Some(keyring) => Ok(Front::Body(Recorded {
                    intro,
                    signer,
                    keyring,
                    keys: Items::new(alloc),
                    commits: IdList::new(alloc),
                })),
                None => Err(CacheFail::Form(at)),
            },
            Front::Body(recorded) => recorded.with_line(line, at),
            Front::Ended(_) => Err(CacheFail::Form(at)),
        }
    }

    /// What is recorded, if all is read and nothing stands behind it.
    pub fn finish(self, left: &[u8], at: u64) -> Result<Recorded, CacheFail>
        ensures { result ≡ finish at self left.now }
    {
        let Front::Ended(recorded) = self else {
            return Err(CacheFail::Form(at));
        };
        if left.is_empty() {
            Ok(recorded)
        } else {
            Err(CacheFail::Form(at))
        }
    }
}
