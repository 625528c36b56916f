//! Git in memory: rows, read in pieces of given sizes.
ghost use Rattle.std.specs.Prelude.{◌≡◌, ◌↔◌, ◌≤◌, ◌<◌, ◌+◌, ◌-◌, ◌^◌, ℕ, min, [], true, length, take, drop, slice_get, IfOk, OnOk, OnErr, IsErr, MatchOption};
ghost use Rattle.std.specs.List.{AllByRecursion};
ghost use Rattle.child_ports.specs.Git.{IsName, answer, missing, Hands};
ghost use Rattle.child_ports.specs.Framed.{IsFramed, RowFits};
ghost use Rattle.child_ports.specs.Named.{after_name};
ghost use Rattle.child_ports.specs.Script.{unplayed, FailsNext, after_call, after_fault};
ghost use Rattle.child_ports.specs.MemGit.{row_answer, handed_out};
ghost use Rattle.child_ports.specs.MemGitInside.{current_bytes};
ghost use Rattle.child_ports.specs.Places.{ArePlaced};

use crate::memory::Script;
use crate::memory::places::Places;
use crate::named::after_name;
use crate::{Failed, GitPort, GitRow, GitRows, Numbers};
use std::alloc::{AllocError, Global};
use std::marker::Model;

// Which answer is being read: none, that of a row, or so many bytes for an absent name.
#[derive(Clone, Copy, Drop)]
enum Current {
    Nothing,
    Row(usize),
    Absent(usize),
}

/// Git as rows. It fails at the calls whose numbers it is given, and only there.
#[derive(Drop)]
pub struct MemGit {
    rows: GitRows,
    // By their names.
    places: Places,
    script: Script,
    pieces: Numbers,
    named: u64,
    // The place of the next piece.
    piece: usize,
    current: Current,
    // How much of the current answer is read.
    at: usize,
    // The answer to the last absent name: at most 1,024 bytes, and ` missing` with its line feed.
    absent: [u8; 1033],
}

impl Model for MemGit {
    ghost use Rattle.child_ports.specs.MemGit.{GitState};

    ghost Value = { GitState };

    ghost use Rattle.child_ports.specs.MemGitInside.{git_state, IsSound};

    ghost view = { git_state };

    ghost invariant = { IsSound };
}

// The place of the first row of each name.
fn places_of(alloc: Global, rows: &[GitRow]) -> Result<Places, AllocError>
    ensures { IfOk result (λ places. ArePlaced (λ row. row.name) rows.now places 0) }
{
    let mut places = Places::new(alloc);
    let mut i = rows.len();
    while i > 0 {
        i -= 1;
        places.put(alloc, rows[i].name.as_slice(), i)?;
    }
    Ok(places)
}

// The first row for a name, from a place on.
fn find_from(rows: &[GitRow], start: usize, dir: &str, name: &[u8]) -> Option<usize>
    ensures { MatchOption result (answer (drop start rows.now) dir.now name.now ≡ missing name.now) (λ i. (i < length rows.now) × (row_answer (slice_get rows.now i) ≡ answer (drop start rows.now) dir.now name.now)) }
{
    for i in start..rows.len() {
        let row = &rows[i];
        if row.dir.as_str() == dir && row.name.as_slice() == name {
            return Some(i);
        }
    }
    None
}

// The first row for a name.
fn find_row(rows: &[GitRow], places: &Places, dir: &str, name: &[u8]) -> Option<usize>
    requires { ArePlaced (λ row. row.name) rows.now places.now 0 }
    ensures { MatchOption result (answer rows.now dir.now name.now ≡ missing name.now) (λ i. (i < length rows.now) × (row_answer (slice_get rows.now i) ≡ answer rows.now dir.now name.now)) }
{
    let start = places.get(name)?;
    find_from(rows, start, dir, name)
}

// Writes the answer to an absent name, and says how long it is.
fn write_missing(out: &mut [u8; 1033], name: &[u8]) -> usize
    requires { IsName name.now }
    ensures room { result ≤ 1033 }
    ensures text { take result out.new ≡ missing name.now }
{
    let end = b" missing\n";
    let n = name.len();
    out[..n].copy_from_slice(name);
    out[n..n + 9].copy_from_slice(end);
    n + 9
}

// The next piece's size, and the place of the one after it.
fn next_piece(pieces: &Numbers, piece: &mut usize) -> usize
    ensures size { (fit : ℕ) → fit < 2 ^ 64 → min result fit ≡ handed_out (drop piece.old pieces.now) fit }
    ensures some { 0 < result }
    ensures rest { drop piece.new pieces.now ≡ drop 1 (drop piece.old pieces.now) }
{
    let sizes = pieces.as_slice();
    if *piece < sizes.len() {
        let size = sizes[*piece];
        *piece += 1;
        return size.max(1) as usize;
    }
    usize::MAX
}

// Copies what fits of the bytes from a place on, and at most a number of them.
fn copy_from(bytes: &[u8], at: usize, most: usize, buf: &mut [u8]) -> usize
    requires { at ≤ length bytes.now }
    ensures count { result ≡ min most (min (length bytes.now - at) (length buf.old)) }
    ensures front { take result buf.new ≡ take result (drop at bytes.now) }
{
    let n = most.min((bytes.len() - at).min(buf.len()));
    buf[..n].copy_from_slice(&bytes[at..at + n]);
    n
}

// The whole answer that is being read.
fn bytes_of<'x>(rows: &'x GitRows, absent: &'x [u8; 1033], current: Current) -> &'x [u8]
    ensures { result.now ≡ current_bytes rows.now absent.now current }
{
    match current {
        Current::Nothing => &[],
        Current::Row(i) => match rows.get(i) {
            Some(row) => row.answer.as_slice(),
            None => &[],
        },
        Current::Absent(n) => &absent[..n.min(1033)],
    }
}

impl MemGit {
    /// Git that answers by these rows, of which the first for a name counts.
    ///
    /// `pieces` has the largest size of each `read` in turn. 0 counts as 1, and after the last piece a
    /// `read` gives all that fits.
    pub fn new(
        alloc: Global,
        rows: GitRows,
        fails: Numbers,
        pieces: Numbers,
    ) -> Result<MemGit, AllocError>
        requires { AllByRecursion RowFits rows }
        ensures rows { IfOk result (λ git. git.rows ≡ rows) }
        ensures script { IfOk result (λ git. git.script ≡ unplayed fails) }
        ensures pieces { IfOk result (λ git. git.pieces ≡ pieces) }
        ensures named { IfOk result (λ git. git.named ≡ 0) }
        ensures pending { IfOk result (λ git. git.pending ≡ []) }
    {
        let places = places_of(alloc, rows.as_slice())?;
        Ok(MemGit {
            rows,
            places,
            script: Script::new(fails),
            pieces,
            named: 0,
            piece: 0,
            current: Current::Nothing,
            at: 0,
            absent: [0; 1033],
        })
    }

    /// How many names were asked that are no ids in full, whatever the answers. It stays at the last u64.
    pub fn named(&self) -> u64
        ensures { result ≡ self.now.named }
    {
        self.named
    }
}

impl GitPort for MemGit {
    ghost faults = { λ git. git.script.faults };

    ghost tells = { λ git. true };

    ghost table = { λ git. git.rows };

    ghost named = { λ git. git.named };

    ghost pending = { λ git. git.pending };

    fn ask(&mut self, dir: &str, name: &[u8]) -> Result<(), Failed>
        requires { IsName name.now }
        ensures rows { self.new.rows ≡ self.old.rows }
        ensures named { self.new.named ≡ after_name name.now self.old.named }
        ensures framed { IsFramed name.now (answer self.old.rows dir.now name.now) }
        ensures ok { OnOk result (self.new ≡ record self.old { script = after_call self.old.script; named = after_name name.now self.old.named; pending = answer self.old.rows dir.now name.now }) }
        ensures err { OnErr result (self.new ≡ record self.old { script = after_fault self.old.script; named = after_name name.now self.old.named }) }
        ensures exact { IsErr result ↔ FailsNext self.old.script }
    {
        self.named = after_name(self.named, name);
        self.script.count()?;
        self.current = match find_row(self.rows.as_slice(), &self.places, dir, name) {
            Some(i) => Current::Row(i),
            None => Current::Absent(write_missing(&mut self.absent, name)),
        };
        self.at = 0;
        Ok(())
    }

    fn read(&mut self, buf: &mut [u8]) -> Result<usize, Failed>
        ensures rows { self.new.rows ≡ self.old.rows }
        ensures named { self.new.named ≡ self.old.named }
        ensures room { IfOk result (λ n. n ≤ length buf.old) }
        ensures size { IfOk result (λ n. n ≡ handed_out self.old.pieces (min (length self.old.pending) (length buf.old))) }
        ensures bytes { IfOk result (λ n. Hands self.old.pending self.new.pending n buf.new) }
        ensures ok { OnOk result (self.new ≡ record self.old { script = after_call self.old.script; pieces = drop 1 self.old.pieces; pending = self.new.pending }) }
        ensures err { OnErr result (self.new ≡ record self.old { script = after_fault self.old.script }) }
        ensures exact { IsErr result ↔ FailsNext self.old.script }
    {
        self.script.count()?;
        let most = next_piece(&self.pieces, &mut self.piece);
        let bytes = bytes_of(&self.rows, &self.absent, self.current);
        let n = copy_from(bytes, self.at, most, buf);
        self.at += n;
        Ok(n)
    }
}
