//! Reading the text of a cache.
ghost use Rattle.std.specs.Prelude.{◌≡◌, ◌≤◌, ◌-◌, List, ℕ, length, IfOk, IfErr};
ghost use Rattle.authorizations.specs.declared.scope.Scope.{Scope};
ghost use Rattle.auth_cache.specs.declared.front.Front.TheVariants.{Versioned};
ghost use Rattle.auth_cache.specs.Faults.{IsFault};
ghost use Rattle.auth_cache.specs.Found.{CanBeRecorded, IsFound};
ghost use Rattle.auth_cache.specs.Lines.{lines_of};
ghost use Rattle.auth_cache.specs.Reading.{Gives, run, recorded_of, cache_of};
ghost use Rattle.auth_cache.specs.Text.{text_of};

use crate::front::{Front, Recorded};
use crate::lines::version_on;
use crate::{CacheFail, Entries};
use authorizations::Scope;
use byte_cuts::cut_at;
use std::alloc::Global;

// What the lines behind the version's record, which are the last of so many bytes.
fn read_lines(alloc: Global, text: &[u8], size: usize) -> Result<Recorded, CacheFail>
    requires { length text.now ≤ size }
    ensures { Gives result (run (size - length text.now) Versioned (lines_of text.now).whole (lines_of text.now).left) }
{
    let mut front = Front::Versioned;
    let mut rest = text;
    'lines: while let Some((line, next)) = cut_at(rest, b'\n') {
        front = front.with_line(alloc, line, (size - rest.len()) as u64)?;
        rest = next;
    }
    front.finish(rest, (size - rest.len()) as u64)
}

// What the bytes record.
fn read_recorded(alloc: Global, bytes: &[u8]) -> Result<Recorded, CacheFail>
    ensures { Gives result (recorded_of bytes.now) }
{
    let Some((line, rest)) = cut_at(bytes, b'\n') else {
        return Err(CacheFail::Form(0));
    };
    let Some(version) = version_on(line) else {
        return Err(CacheFail::Form(0));
    };
    if version != 1 {
        return Err(CacheFail::Version(version));
    }
    read_lines(alloc, rest, bytes.len())
}

// The commits that the bytes give under the scope.
fn read_entries(alloc: Global, bytes: &[u8], scope: &Scope) -> Result<Entries, CacheFail>
    ensures { Gives result (cache_of bytes.now scope.now) }
{
    let recorded = read_recorded(alloc, bytes)?;
    if recorded.is_under(scope) {
        Ok(Entries::of_list(recorded.commits))
    } else {
        Ok(Entries::new(alloc))
    }
}

/// The commits that a text records under a scope: none, where it records those of another scope.
pub fn read_cache(alloc: Global, bytes: &[u8], scope: &Scope) -> Result<Entries, CacheFail>
    // Unless memory is wanting, the answer is what the bytes give.
    ensures answer { Gives result (cache_of bytes.now scope.now) }
    // What is read is the text of some scope and some commits, which count where the scope is the given one.
    ensures found { IfOk result (λ entries. IsFound bytes.now scope.now entries) }
    // Each text of a cache is read.
    ensures only { (recorded : Scope) (ids : List (List ℕ)) → CanBeRecorded recorded ids → bytes.now ≡ text_of recorded ids → IfErr result (λ fail. fail ≡ CacheFail.Memory) }
    // A refusal is the first thing at fault.
    ensures cause { IfErr result (λ fail. IsFault bytes.now fail) }
{
    read_entries(alloc, bytes, scope)
}
