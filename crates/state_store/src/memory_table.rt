//! The table in memory.
ghost use Rattle.std.specs.Prelude.{◌≡◌, IfOk, OnOk, OnErr};
ghost use Rattle.std.specs.FinMap as map;
ghost use Rattle.child_ports.specs.Keeper.{with_pairs};

use crate::statements::{make_table, put_all, select};
use child_ports::{Bytes, Pair};
use sqlite::{Connection, Error, MemStore};
use std::alloc::Global;
use std::marker::Model;

/// The table of a database in memory, which contracts see as the map from its keys to their values.
#[derive(Drop)]
pub struct MemoryTable {
    conn: Connection<MemStore>,
}

impl Model for MemoryTable {
    ghost use Rattle.std.specs.FinMap.{code};
    ghost use Rattle.std.specs.Coded.{coded_ℕ, coded_list};
    ghost use Rattle.sqlite.specs.Held.{state};
    ghost use Rattle.sqlite.specs.Steps.{over_memory};
    ghost use Rattle.child_ports.specs.Keeper.{Kept};
    ghost use Rattle.state_store.specs.Statements.{Rests, kept_in};

    ghost Value = { Kept };

    ghost coded = { code (coded_list coded_ℕ) (coded_list coded_ℕ) };

    ghost view = { λ table. kept_in (state over_memory table.conn) };

    ghost invariant = { λ table. Rests (state over_memory table.conn) };
}

impl MemoryTable {
    /// A table without rows.
    pub fn new(alloc: Global) -> Result<MemoryTable, Error>
        ensures { IfOk result (λ table. table ≡ map.empty) }
    {
        let mut conn = Connection::open_in_memory(alloc)?;
        make_table(&mut conn)?;
        Ok(MemoryTable { conn })
    }

    /// The value at a key, if there is one.
    pub fn value(&mut self, key: &str) -> Result<Option<Bytes>, Error>
        ensures same { self.new ≡ self.old }
        ensures value { IfOk result (λ value. value ≡ map.get self.old key.now) }
    {
        select(&mut self.conn, key)
    }

    /// Puts each pair, in order, or none.
    pub fn put(&mut self, pairs: &[Pair]) -> Result<(), Error>
        ensures ok { OnOk result (self.new ≡ with_pairs self.old pairs.now) }
        ensures err { OnErr result (self.new ≡ self.old) }
    {
        put_all(&mut self.conn, pairs)
    }
}
