//! The table at its place, opened at the first call.
ghost use Rattle.std.specs.Prelude.{◌≡◌, IfOk, OnOk, OnErr, IsSome, IsTrue, unwrap_or};
ghost use Rattle.std.specs.FinMap as map;
ghost use Rattle.child_ports.specs.Keeper.{with_pairs};
ghost use Rattle.state_store.specs.Statements.{IsIntact, Rests, IsSame, StoresAll, kept_in};
ghost use Rattle.state_store.specs.Place.{is_told, kept_at, IsOpen, InFile};

use crate::memory_table::MemoryTable;
use crate::opening::{FileTable, NOT_OPEN, open_file};
use crate::statements::{put_all, select};
use child_ports::{Bytes, Pair};
use sqlite::Error;
use std::alloc::Global;
use std::rt::HostRuntime;

/// Where the table is, and the table once it is open.
#[derive(Drop)]
pub enum Place {
    Memory {
        table: Option<MemoryTable>,
    },
    File {
        rt: HostRuntime,
        path: String,
        table: Option<FileTable>,
    },
}

// Opens the table in memory, where it isn't open yet.
fn open_in_memory(alloc: Global, table: &mut Option<MemoryTable>) -> Result<(), Error>
    ensures open { OnOk result (IsSome table.new) }
    ensures once { IsSome table.old → table.new ≡ table.old }
    ensures same { unwrap_or table.new map.empty ≡ unwrap_or table.old map.empty }
{
    if table.is_none() {
        *table = Some(MemoryTable::new(alloc)?);
    }
    Ok(())
}

// Opens the table in a file, where it isn't open yet.
fn open_in_file(rt: &HostRuntime, path: &str, table: &mut Option<FileTable>) -> Result<(), Error>
    ensures open { OnOk result (IsSome table.new) }
    ensures once { IsSome table.old → table.new ≡ table.old }
{
    if table.is_none() {
        *table = Some(open_file(rt, path)?);
    }
    Ok(())
}

impl Place {
    // Opens the table, where it isn't open yet.
    fn open(&mut self, alloc: Global) -> Result<(), Error>
        ensures open { OnOk result (IsOpen self.new) }
        ensures once { IsOpen self.old → self.new ≡ self.old }
        ensures told { is_told self.new ≡ is_told self.old }
        ensures same { kept_at self.new ≡ kept_at self.old }
    {
        match self {
            Place::Memory { table } => open_in_memory(alloc, table),
            Place::File { rt, path, table } => open_in_file(rt, path.as_str(), table),
        }
    }

    // The value at a key of the open table, if there is one.
    fn value_if_open(&mut self, key: &str) -> Result<Option<Bytes>, Error>
        ensures open { OnOk result (IsOpen self.new) }
        ensures told { is_told self.new ≡ is_told self.old }
        ensures same { kept_at self.new ≡ kept_at self.old }
        ensures value { IfOk result (λ value. IsTrue (is_told self.old) → value ≡ map.get (kept_at self.old) key.now) }
        ensures file_same { InFile self.old self.new (λ old new. IsIntact new → Rests old → IsSame old new) }
        ensures file_value { InFile self.old self.new (λ old new. IsIntact new → Rests old → IfOk result (λ value. value ≡ map.get (kept_in old) key.now)) }
    {
        match self {
            Place::Memory { table: Some(table) } => table.value(key),
            Place::File {
                rt: _,
                path: _,
                table: Some(conn),
            } => select(conn, key),
            _ => Err(NOT_OPEN),
        }
    }

    // Puts each pair in the open table, in order, or none.
    fn put_if_open(&mut self, pairs: &[Pair]) -> Result<(), Error>
        ensures open { OnOk result (IsOpen self.new) }
        ensures told { is_told self.new ≡ is_told self.old }
        ensures ok { OnOk result (IsTrue (is_told self.old) → kept_at self.new ≡ with_pairs (kept_at self.old) pairs.now) }
        ensures err { OnErr result (kept_at self.new ≡ kept_at self.old) }
        ensures file { InFile self.old self.new (λ old new. IsIntact new → Rests old → StoresAll pairs.now old new result) }
    {
        match self {
            Place::Memory { table: Some(table) } => table.put(pairs),
            Place::File {
                rt: _,
                path: _,
                table: Some(conn),
            } => put_all(conn, pairs),
            _ => Err(NOT_OPEN),
        }
    }

    /// The value at a key, if there is one.
    pub fn value(&mut self, alloc: Global, key: &str) -> Result<Option<Bytes>, Error>
        // Only an open table answers, be it that a key has no value.
        ensures open { OnOk result (IsOpen self.new) }
        ensures told { is_told self.new ≡ is_told self.old }
        ensures same { kept_at self.new ≡ kept_at self.old }
        ensures value { IfOk result (λ value. IsTrue (is_told self.old) → value ≡ map.get (kept_at self.old) key.now) }
        // The same of a file that is open and intact.
        ensures file_same { InFile self.old self.new (λ old new. IsIntact new → Rests old → IsSame old new) }
        ensures file_value { InFile self.old self.new (λ old new. IsIntact new → Rests old → IfOk result (λ value. value ≡ map.get (kept_in old) key.now)) }
    {
        self.open(alloc)?;
        self.value_if_open(key)
    }

    /// Puts each pair, in order, or none.
    pub fn put(&mut self, alloc: Global, pairs: &[Pair]) -> Result<(), Error>
        ensures open { OnOk result (IsOpen self.new) }
        ensures told { is_told self.new ≡ is_told self.old }
        ensures ok { OnOk result (IsTrue (is_told self.old) → kept_at self.new ≡ with_pairs (kept_at self.old) pairs.now) }
        ensures err { OnErr result (kept_at self.new ≡ kept_at self.old) }
        // The same of a file that is open and intact.
        ensures file { InFile self.old self.new (λ old new. IsIntact new → Rests old → StoresAll pairs.now old new result) }
    {
        self.open(alloc)?;
        self.put_if_open(pairs)
    }
}
