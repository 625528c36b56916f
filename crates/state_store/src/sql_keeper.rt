//! A keeper of values in a database.
ghost use Rattle.std.specs.Prelude.{◌≡◌, IfOk, true};
ghost use Rattle.std.specs.FinMap as map;
ghost use Rattle.state_store.specs.Place.{is_told, kept_at};

use crate::place::Place;
use crate::refusing::counted;
use child_ports::{Bytes, Keeper, Pairs, PortFail};
use std::alloc::{AllocError, Global};
use std::rt::HostRuntime;

/// The values of keys, in the table `kept(key TEXT PRIMARY KEY, value BLOB NOT NULL)` of an SQLite database.
///
/// The database is opened at the first call, and again at the next where that was refused. A file that isn't there is
/// made with its folder. While a keeper has it open, another one's opening is refused at once. A `store` is one
/// transaction: all its pairs are kept, or none. A keeper that is dropped leaves all that it stored in the one file.
/// What is kept in memory is told, and what is kept in a file isn't: the disk may have changed it.
pub struct SqlKeeper {
    alloc: Global,
    place: Place,
    faults: u64,
    stores: u64,
}

impl Drop for SqlKeeper {
    // Copies the log into the file. Where that is refused, the log stays beside it, and the next opening takes it up.
    fn drop(self) {
        let SqlKeeper {
            alloc: _,
            place,
            faults: _,
            stores: _,
        } = self;
        if let Place::File {
            rt: _,
            path: _,
            table,
        } = place
        {
            if let Some(conn) = table {
                let _ = conn.close();
            }
        }
    }
}

impl SqlKeeper {
    /// A keeper over the file at this path. It isn't opened yet.
    pub fn at(rt: HostRuntime, alloc: Global, path: &str) -> Result<SqlKeeper, AllocError> {
        let path = String::from_str(alloc, path)?;
        Ok(SqlKeeper {
            alloc,
            place: Place::File {
                rt,
                path,
                table: None,
            },
            faults: 0,
            stores: 0,
        })
    }

    /// A keeper over a database in memory.
    pub fn in_memory(alloc: Global) -> Result<SqlKeeper, AllocError>
        ensures told { IfOk result (λ keeper. is_told keeper.place ≡ true) }
        ensures empty { IfOk result (λ keeper. kept_at keeper.place ≡ map.empty) }
    {
        Ok(SqlKeeper {
            alloc,
            place: Place::Memory { table: None },
            faults: 0,
            stores: 0,
        })
    }
}

impl Keeper for SqlKeeper {
    ghost faults = { λ keeper. keeper.faults };

    ghost tells = { λ keeper. is_told keeper.place };

    ghost stores = { λ keeper. keeper.stores };

    ghost kept = { λ keeper. kept_at keeper.place };

    fn load(&mut self, alloc: Global, key: &str) -> Result<Option<Bytes>, PortFail> {
        let _ = alloc;
        let value = self.place.value(self.alloc, key);
        counted(value, &mut self.faults)
    }

    fn store(&mut self, pairs: &Pairs) -> Result<(), PortFail> {
        self.stores = self.stores.saturating_add(1);
        let stored = self.place.put(self.alloc, pairs.as_slice());
        counted(stored, &mut self.faults)
    }
}
